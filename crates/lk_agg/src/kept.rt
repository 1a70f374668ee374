ghost use Rattle.std.specs.Prelude.{◌≡◌, [], IfOk, OnOk, map, true};
ghost use Rattle.lk_val.specs.Sets.{with_item};
ghost use Rattle.lk_val.specs.ValueRefs.{value_of_ref};
ghost use Rattle.lk_types.specs.PairOrder.{pair_cmp};
ghost use Rattle.lk_agg.specs.Finishing.{digest_of};
ghost use Rattle.lk_agg.specs.Kept.{rows_kept};
ghost use Rattle.lk_agg.specs.NumberPair.{pair_of_numbers};
ghost use Rattle.lk_agg.specs.Tallies.{no_tally, with_amount};
ghost use Rattle.lk_agg.specs.TextPair.{pair_of_text, text_pair_cmp, text_pair_lent};

use crate::digest::{Digest, Paired, digest_of};
use crate::number_pair::{NumberPair, numbers_of};
use crate::sorted::{Growth, Sorted};
use crate::tally::Tally;
use crate::text_pair::{LentTextPair, TextPair, is_found, text_pair_of};
use lk_types::Pair;
use lk_val::{Items, NoMemory, ValueRef};
use std::alloc::Global;
use std::marker::Model;
use std::mem;

// What a group keeps for a measure over keys. Clauses see it as its rows.
#[derive(Drop)]
pub(crate) struct Kept {
    form: Form,
}

// The pairs of the rows with keys, each once, and a tally of the rows without.
#[derive(Drop)]
pub(crate) struct KeptRows {
    pub(crate) pairs: Sorted<Pair>,
    pub(crate) tally: Tally,
}

// The rows in as little room as they need. All rows of a query have keys for a measure, or none has one. Where some
// have and some haven't, they stand in a block of their own: no other group takes the room for both.
#[derive(Drop)]
pub(crate) enum Form {
    // Pairs as numbers, while all are such. Before any row there is none.
    Numbers(Sorted<NumberPair>),
    // Pairs of which the keys are texts and the values numbers or null, while all are such.
    Texts(Sorted<TextPair>),
    Whole(Sorted<Pair>),
    Tally(Tally),
    Mixed(Box<KeptRows>),
}

impl Model for Kept {
    ghost use Rattle.lk_agg.specs.declared.kept.KeptRows.{KeptRows};

    ghost Value = { KeptRows };

    ghost use Rattle.lk_agg.specs.Kept.{rows_kept};

    ghost view = { λ kept. rows_kept kept.form };
}

impl Kept {
    ghost use Rattle.std.specs.Prelude.{◌≡◌, [], IfOk, OnOk};
    ghost use Rattle.lk_val.specs.Sets.{with_item};
    ghost use Rattle.lk_val.specs.ValueRefs.{value_of_ref};
    ghost use Rattle.lk_types.specs.PairOrder.{pair_cmp};
    ghost use Rattle.lk_agg.specs.Finishing.{digest_of};
    ghost use Rattle.lk_agg.specs.Tallies.{no_tally, with_amount};

    // No row, which takes no memory.
    pub(crate) fn new(alloc: Global) -> Kept
        ensures { result ≡ record { pairs = []; tally = no_tally } }
    {
        Kept {
            form: Form::Numbers(Sorted::new(alloc)),
        }
    }

    // Adds the pair of a row with a key, unless it is there.
    #[tactic(auto, using(crate::proofs::KeptLaws::numbers_are))]
    pub(crate) fn insert(
        &mut self,
        alloc: Global,
        key: ValueRef<'_>,
        value: ValueRef<'_>,
    ) -> Result<(), NoMemory>
        ensures { OnOk result (self.new ≡ record self.old {
          pairs = with_item pair_cmp
              (record { key = value_of_ref key.entry; value = value_of_ref value.entry }) self.old.pairs;
        }) }
    {
        match numbers_of(key, value) {
            Some(pair) => insert_numbers(alloc, &mut self.form, pair),
            None => insert_other(alloc, &mut self.form, key, value),
        }
    }

    // Tallies a row without a key.
    pub(crate) fn tally(&mut self, alloc: Global, value: ValueRef<'_>) -> Result<(), NoMemory>
        ensures { OnOk result (self.new
            ≡ record self.old { tally = with_amount (value_of_ref value.entry) self.old.tally }) }
    {
        tally_row(alloc, &mut self.form, value)
    }

    // What the pairs come to, and the tally.
    #[tactic(auto, using(crate::specs::NumberPair::number_pairs_ordered, crate::specs::TextPair::text_pairs_ordered))]
    pub(crate) fn digest(self, alloc: Global) -> Result<(Digest, Tally), NoMemory>
        ensures { IfOk result (λ digest. digest ≡ (digest_of self.pairs, self.tally)) }
    {
        let Kept { form } = self;
        match form {
            Form::Numbers(numbers) => {
                let digest = digest_of(alloc, numbers.into_ascending().as_slice())?;
                Ok((digest, Tally::new()))
            }
            Form::Texts(texts) => {
                let digest = digest_of(alloc, texts.into_ascending().as_slice())?;
                Ok((digest, Tally::new()))
            }
            form => digest_of_rows(alloc, rows_of(alloc, form)?),
        }
    }
}

#[tactic(auto, using(lk_types::specs::PairOrder::pairs_ordered))]
fn digest_of_rows(alloc: Global, rows: KeptRows) -> Result<(Digest, Tally), NoMemory>
    ensures { IfOk result (λ digest. digest ≡ (digest_of rows.pairs, rows.tally)) }
{
    let KeptRows { pairs, tally } = rows;
    let digest = digest_of(alloc, pairs.into_ascending().as_slice())?;
    Ok((digest, tally))
}

#[tactic(auto, using(crate::specs::NumberPair::number_pairs_ordered, crate::proofs::KeptLaws::with_numbers))]
fn insert_numbers(alloc: Global, form: &mut Form, pair: NumberPair) -> Result<(), NoMemory>
    ensures { OnOk result (rows_kept form.new ≡ record (rows_kept form.old) {
      pairs = with_item pair_cmp (pair_of_numbers pair) (rows_kept form.old).pairs;
    }) }
{
    match form {
        Form::Numbers(numbers) => numbers.insert(pair, Growth::Half),
        _ => insert_whole(alloc, form, pair.to_pair()),
    }
}

// Adds a pair that is not one of numbers.
#[tactic(auto, using(crate::proofs::KeptLaws::text_is))]
fn insert_other(
    alloc: Global,
    form: &mut Form,
    key: ValueRef<'_>,
    value: ValueRef<'_>,
) -> Result<(), NoMemory>
    ensures { OnOk result (rows_kept form.new ≡ record (rows_kept form.old) {
      pairs = with_item pair_cmp
          (record { key = value_of_ref key.entry; value = value_of_ref value.entry }) (rows_kept form.old).pairs;
    }) }
{
    match text_pair_of(key, value) {
        Some(pair) => insert_text(alloc, form, pair),
        None => {
            let pair = Pair {
                key: key.to_value(alloc)?,
                value: value.to_value(alloc)?,
            };
            insert_whole(alloc, form, pair)
        }
    }
}

#[tactic(auto, using(crate::proofs::KeptLaws::with_text))]
fn insert_text(alloc: Global, form: &mut Form, pair: LentTextPair<'_>) -> Result<(), NoMemory>
    ensures { OnOk result (rows_kept form.new ≡ record (rows_kept form.old) {
      pairs = with_item pair_cmp (pair_of_text (text_pair_lent pair.entry)) (rows_kept form.old).pairs;
    }) }
{
    if is_new(form) {
        *form = Form::Texts(Sorted::new(alloc));
    }
    match form {
        Form::Texts(texts) => add_text(alloc, texts, pair),
        _ => insert_whole(alloc, form, pair.to_text_pair(alloc)?.into_pair()),
    }
}

// The key is copied only where its pair is not found.
#[tactic(auto, using(crate::specs::TextPair::text_pairs_ordered))]
fn add_text(
    alloc: Global,
    texts: &mut Sorted<TextPair>,
    pair: LentTextPair<'_>,
) -> Result<(), NoMemory>
    ensures { OnOk result (texts.new ≡ with_item text_pair_cmp (text_pair_lent pair.entry) texts.old) }
{
    if is_found(texts.first_items(), pair) {
        return Ok(());
    }
    texts.push(pair.to_text_pair(alloc)?, Growth::Fifth)
}

// Whether no row was added.
fn is_new(form: &Form) -> bool
    ensures { result ≡ true → rows_kept form.now ≡ record { pairs = []; tally = no_tally } }
{
    match form {
        Form::Numbers(numbers) => numbers.is_empty(),
        _ => false,
    }
}

#[tactic(auto, using(lk_types::specs::PairOrder::pairs_ordered))]
fn insert_whole(alloc: Global, form: &mut Form, pair: Pair) -> Result<(), NoMemory>
    ensures { OnOk result (rows_kept form.new ≡ record (rows_kept form.old) {
      pairs = with_item pair_cmp pair (rows_kept form.old).pairs;
    }) }
{
    match form {
        Form::Whole(pairs) => pairs.insert(pair, Growth::Fifth),
        Form::Mixed(rows) => rows.pairs.insert(pair, Growth::Fifth),
        _ => insert_anew(alloc, form, pair),
    }
}

// Adds a pair to rows that need another form then.
#[tactic(auto, using(lk_types::specs::PairOrder::pairs_ordered))]
fn insert_anew(alloc: Global, form: &mut Form, pair: Pair) -> Result<(), NoMemory>
    ensures { OnOk result (rows_kept form.new ≡ record (rows_kept form.old) {
      pairs = with_item pair_cmp pair (rows_kept form.old).pairs;
    }) }
{
    let taken = mem::replace(form, Form::Numbers(Sorted::new(alloc)));
    let mut rows = rows_of(alloc, taken)?;
    rows.pairs.insert(pair, Growth::Fifth)?;
    *form = form_of(alloc, rows)?;
    Ok(())
}

fn tally_row(alloc: Global, form: &mut Form, value: ValueRef<'_>) -> Result<(), NoMemory>
    ensures { OnOk result (rows_kept form.new ≡ record (rows_kept form.old) {
      tally = with_amount (value_of_ref value.entry) (rows_kept form.old).tally;
    }) }
{
    match form {
        Form::Tally(tally) => tally.add(value),
        Form::Mixed(rows) => rows.tally.add(value),
        _ => tally_first(alloc, form, value),
    }
}

// Tallies the first row without a key.
fn tally_first(alloc: Global, form: &mut Form, value: ValueRef<'_>) -> Result<(), NoMemory>
    ensures { OnOk result (rows_kept form.new ≡ record (rows_kept form.old) {
      tally = with_amount (value_of_ref value.entry) (rows_kept form.old).tally;
    }) }
{
    let taken = mem::replace(form, Form::Numbers(Sorted::new(alloc)));
    let mut rows = rows_of(alloc, taken)?;
    rows.tally.add(value)?;
    *form = form_of(alloc, rows)?;
    Ok(())
}

// The rows, out of their form.
fn rows_of(alloc: Global, form: Form) -> Result<KeptRows, NoMemory>
    ensures { IfOk result (λ rows. rows ≡ rows_kept form) }
{
    match form {
        Form::Numbers(numbers) => Ok(KeptRows {
            pairs: whole_of(alloc, numbers)?,
            tally: Tally::new(),
        }),
        Form::Texts(texts) => Ok(KeptRows {
            pairs: whole_of_texts(alloc, texts)?,
            tally: Tally::new(),
        }),
        Form::Whole(pairs) => Ok(KeptRows {
            pairs,
            tally: Tally::new(),
        }),
        Form::Tally(tally) => Ok(KeptRows {
            pairs: Sorted::new(alloc),
            tally,
        }),
        Form::Mixed(rows) => Ok(Box::into_inner(rows)),
    }
}

// The form of rows that are not all pairs of one kind.
fn form_of(alloc: Global, rows: KeptRows) -> Result<Form, NoMemory>
    ensures { IfOk result (λ form. rows_kept form ≡ rows) }
{
    if rows.tally.is_empty() {
        let KeptRows { pairs, .. } = rows;
        Ok(Form::Whole(pairs))
    } else if rows.pairs.is_empty() {
        let KeptRows { tally, .. } = rows;
        Ok(Form::Tally(tally))
    } else {
        Ok(Form::Mixed(Box::new(alloc, rows)?))
    }
}

#[tactic(auto, using(crate::proofs::KeptLaws::set_of_numbers))]
fn whole_of(alloc: Global, numbers: Sorted<NumberPair>) -> Result<Sorted<Pair>, NoMemory>
    ensures { IfOk result (λ pairs. pairs ≡ map pair_of_numbers numbers) }
{
    let pairs = pairs_of(alloc, numbers.into_vec())?;
    Ok(Sorted::from_vec(pairs.into_vec()))
}

#[tactic(auto, using(crate::proofs::KeptLaws::set_of_texts))]
fn whole_of_texts(alloc: Global, texts: Sorted<TextPair>) -> Result<Sorted<Pair>, NoMemory>
    ensures { IfOk result (λ pairs. pairs ≡ map pair_of_text texts) }
{
    let pairs = pairs_of(alloc, texts.into_vec())?;
    Ok(Sorted::from_vec(pairs.into_vec()))
}

fn pairs_of<T: Paired + Drop>(alloc: Global, items: Vec<T>) -> Result<Items<Pair>, NoMemory>
    ensures { IfOk result (λ pairs. pairs ≡ map T.pair items.items) }
{
    let mut pairs = Items::from_vec(Vec::with_capacity(alloc, items.len())?);
    for item in items {
        pairs.push(item.into_pair())?;
    }
    Ok(pairs)
}
