ghost use Rattle.std.specs.Prelude.{◌≡◌, ◌≤◌, ◌+◌, ◌-◌, ◌∷◌, [], true, false, IfOk, length, take};
ghost use Rattle.std.specs.Option.{unwrap_or};
ghost use Rattle.lk_grammar.specs.Reaching.{HasReached, reached_front};
ghost use Rattle.lk_expr_token.specs.TokenFronts.{is_unread};
ghost use Rattle.lk_expr_token.specs.Terminals.{every_terminal};
ghost use Rattle.lk_expr_place.specs.TerminalGrammar.{IsTerminals, grammar_form, grammar_rules};
ghost use Rattle.lk_expr_place.specs.SyntaxPlaces.{IsStart, IsSyntaxPlace, IsTerminalText, MayFollow};

use crate::judging::{Grammar, Judge};
use lk_expr_token::{
    TERMINALS, Terminal, begun, behind_tokens, is_unread, terminal_byte, terminals_in,
};
use lk_grammar::Reached;
use lk_val::NoMemory;
use std::alloc::Global;

// The byte at which a text stops being of a grammar: the length of its longest prefix that begins some text of the
// grammar, or the first byte of a number that no table may hold, where all before it may stand.
pub(crate) fn syntax_place(alloc: Global, grammar: Grammar, text: &[u8]) -> Result<usize, NoMemory>
    ensures { IfOk result (IsSyntaxPlace (IsTerminalText (IsTerminals grammar)) text.now) }
{
    place_by(alloc, &Judge::of(alloc, grammar)?, text)
}

fn place_by(alloc: Global, judge: &Judge, text: &[u8]) -> Result<usize, NoMemory>
    ensures { IfOk result (IsSyntaxPlace (IsTerminalText (IsTerminals judge.now.grammar)) text.now) }
{
    let all = terminals_in(alloc, text)?;
    let all = all.as_slice();
    let reached = judge.reach(alloc, all)?;
    let terminals = front_of(all, reached.place());
    let rest = behind_tokens(alloc, terminals, text)?;
    let stop = Stop {
        grammar: judge.grammar,
        reached: &reached,
        all,
        terminals,
        rest,
    };
    Ok(place_behind(text.len(), rest.len(), stop.start_length(alloc)?))
}

// The bytes before the place, or all of them.
#[tactic(auto, using(crate::proofs::SyntaxPlaceLaws::taken_whole))]
fn front_of(bytes: &[u8], place: Option<usize>) -> &[u8]
    ensures { result.now ≡ take (unwrap_or place (length bytes.now)) bytes.now }
{
    match place {
        Some(place) if place < bytes.len() => &bytes[..place],
        _ => bytes,
    }
}

// The place of a byte of the rest of a text, given the lengths of both.
fn place_behind(whole: usize, rest: usize, place: usize) -> usize
    ensures { (whole - rest) + place ≤ whole → result ≡ (whole - rest) + place }
{
    whole.saturating_sub(rest).saturating_add(place)
}

// Where the tokens of a text stop being of a grammar: how far its terminals go, all of them, those that may stand, and the
// text from there on.
#[derive(Drop)]
struct Stop<'a, 'j> {
    grammar: Grammar,
    reached: &'a Reached<'j>,
    all: &'a [u8],
    terminals: &'a [u8],
    rest: &'a [u8],
}

impl Stop<'_, '_> {
    // The length of the longest front of the rest that begins a token which may stand behind these terminals; 0 where
    // the rest begins with a number that no table may hold.
    fn start_length(&self, alloc: Global) -> Result<usize, NoMemory>
        requires goes { HasReached (grammar_rules self.now.grammar) 100 (grammar_form self.now.grammar) self.now.all.now self.now.reached.now }
        requires front { self.now.terminals.now ≡ reached_front self.now.reached.now self.now.all.now }
        ensures unread { is_unread self.now.rest.now ≡ true → IfOk result (λ n. n ≡ 0) }
        ensures longest { is_unread self.now.rest.now ≡ false → IfOk result (IsStart (IsTerminals self.now.grammar) self.now.terminals.now self.now.rest.now every_terminal) }
    {
        let rest = self.rest;
        if is_unread(rest) {
            return Ok(0);
        }
        if rest.is_empty() {
            return Ok(0);
        }
        self.longest_start(alloc, &TERMINALS)
    }

    // The same for tokens of some terminals, where the rest begins with no such number.
    fn longest_start(&self, alloc: Global, among: &[Terminal]) -> Result<usize, NoMemory>
        requires goes { HasReached (grammar_rules self.now.grammar) 100 (grammar_form self.now.grammar) self.now.all.now self.now.reached.now }
        requires front { self.now.terminals.now ≡ reached_front self.now.reached.now self.now.all.now }
        ensures { is_unread self.now.rest.now ≡ false → IfOk result (IsStart (IsTerminals self.now.grammar) self.now.terminals.now self.now.rest.now among.now) }
    {
        match among.split_first() {
            None => Ok(0),
            Some((terminal, others)) => {
                let best = self.longest_start(alloc, others)?;
                self.longer_start(alloc, others, best, *terminal)
            }
        }
    }

    // The same for one terminal more, which is asked for only where its front is longer.
    fn longer_start(
        &self,
        alloc: Global,
        others: &[Terminal],
        best: usize,
        terminal: Terminal,
    ) -> Result<usize, NoMemory>
        requires goes { HasReached (grammar_rules self.now.grammar) 100 (grammar_form self.now.grammar) self.now.all.now self.now.reached.now }
        requires front { self.now.terminals.now ≡ reached_front self.now.reached.now self.now.all.now }
        requires shorter { is_unread self.now.rest.now ≡ false → IsStart (IsTerminals self.now.grammar) self.now.terminals.now self.now.rest.now others.now best }
        ensures { is_unread self.now.rest.now ≡ false → IfOk result (IsStart (IsTerminals self.now.grammar) self.now.terminals.now self.now.rest.now (terminal ∷ others.now)) }
    {
        let own = begun(alloc, terminal, self.rest)?;
        if own <= best {
            return Ok(best);
        }
        if self.may_come(alloc, terminal)? {
            Ok(own)
        } else {
            Ok(best)
        }
    }

    // Whether a token of the terminal may stand where the tokens stop.
    fn may_come(&self, alloc: Global, terminal: Terminal) -> Result<bool, NoMemory>
        requires goes { HasReached (grammar_rules self.now.grammar) 100 (grammar_form self.now.grammar) self.now.all.now self.now.reached.now }
        requires front { self.now.terminals.now ≡ reached_front self.now.reached.now self.now.all.now }
        ensures sound { IfOk result (λ may. may ≡ true → MayFollow (IsTerminals self.now.grammar) self.now.terminals.now terminal) }
        ensures every { IfOk result (λ may. MayFollow (IsTerminals self.now.grammar) self.now.terminals.now terminal → may ≡ true) }
    {
        self.reached.may_follow(alloc, terminal_byte(terminal))
    }
}
