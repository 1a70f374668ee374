ghost use Rattle.std.specs.Prelude.{◌≡◌};
ghost use Rattle.lk_types.specs.Kinds.{no_kind, every_kind, only, is_empty, shared, kinds_if, single, has_time, comparable, do_compare};

use crate::schema::Kind;
use lk_val::Items;

/// A set of kinds: whether each is in it.
#[derive(Clone, Copy, PartialEq, Eq)]
pub struct KindSet {
    pub text: bool,
    pub number: bool,
    pub truth: bool,
    pub day: bool,
    pub moment: bool,
}

/// The kinds of the columns of each part of a joined row.
#[derive(Drop)]
pub struct Leaves {
    pub kinds: Items<Items<Kind>>,
}

const NONE: KindSet = KindSet {
    text: false,
    number: false,
    truth: false,
    day: false,
    moment: false,
};

impl KindSet {
    /// The empty set.
    pub fn none() -> KindSet
        ensures { result ≡ no_kind }
    {
        NONE
    }

    /// The set of all kinds.
    pub fn every() -> KindSet
        ensures { result ≡ every_kind }
    {
        KindSet {
            text: true,
            number: true,
            truth: true,
            day: true,
            moment: true,
        }
    }

    /// The set of one kind.
    pub fn only(kind: Kind) -> KindSet
        ensures { result ≡ only kind }
    {
        match kind {
            Kind::Text => KindSet { text: true, ..NONE },
            Kind::Number => KindSet {
                number: true,
                ..NONE
            },
            Kind::Truth => KindSet {
                truth: true,
                ..NONE
            },
            Kind::Day => KindSet { day: true, ..NONE },
            Kind::Moment => KindSet {
                moment: true,
                ..NONE
            },
        }
    }

    /// Whether no kind is in the set.
    pub fn is_empty(self) -> bool
        ensures { result ≡ is_empty self }
    {
        !(self.text || (self.number || (self.truth || self.has_time())))
    }

    /// The kinds in both sets.
    pub fn shared(self, other: KindSet) -> KindSet
        ensures { result ≡ shared self other }
    {
        KindSet {
            text: self.text && other.text,
            number: self.number && other.number,
            truth: self.truth && other.truth,
            day: self.day && other.day,
            moment: self.moment && other.moment,
        }
    }

    /// The set, where the condition holds, and else the empty one.
    pub fn kept_if(self, condition: bool) -> KindSet
        ensures { result ≡ kinds_if condition self }
    {
        if condition { self } else { NONE }
    }

    /// The kind of a set that has one alone.
    pub fn single(self) -> Option<Kind>
        ensures { result ≡ single self }
    {
        match (self.text, self.number, self.truth, self.day, self.moment) {
            (true, false, false, false, false) => Some(Kind::Text),
            (false, true, false, false, false) => Some(Kind::Number),
            (false, false, true, false, false) => Some(Kind::Truth),
            (false, false, false, true, false) => Some(Kind::Day),
            (false, false, false, false, true) => Some(Kind::Moment),
            _ => None,
        }
    }

    /// Whether day or moment is in the set.
    pub fn has_time(self) -> bool
        ensures { result ≡ has_time self }
    {
        self.day || self.moment
    }

    /// The kinds that compare with some kind of the set.
    pub fn comparable(self) -> KindSet
        ensures { result ≡ comparable self }
    {
        let timed = self.has_time();
        KindSet {
            day: timed,
            moment: timed,
            ..self
        }
    }

    /// Whether some kind of the one set compares with some kind of the other.
    #[tactic(auto, unfolding(crate::specs::Kinds::do_compare))]
    pub fn does_compare(self, other: KindSet) -> bool
        ensures { result ≡ do_compare self other }
    {
        !self.shared(other.comparable()).is_empty()
    }
}
