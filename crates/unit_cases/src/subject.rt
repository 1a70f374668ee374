ghost use Rattle.std.specs.Prelude.{◌≡◌, true, IfOk};
ghost use Rattle.lk_semantics.specs.Resolved.{has_tiers};

use crate::fault::CaseFault;
use lk_types::{Expr, Field, Frame, Kind, Node, Shape};
use lk_val::{Items, NoMemory, Text};
use std::alloc::Global;

/// What is filtered: a column of a kind, tiers of a number, or a timeframe of a moment.
#[derive(Clone, Copy, PartialEq, Eq)]
pub enum Subject {
    Column(Kind),
    Tiers,
    Timeframe(Frame),
}

impl Subject {
    /// The subject of this name.
    pub fn of(name: &str) -> Result<Subject, CaseFault> {
        Ok(match name {
            "text" => Subject::Column(Kind::Text),
            "number" => Subject::Column(Kind::Number),
            "yesno" => Subject::Column(Kind::Truth),
            "day" => Subject::Column(Kind::Day),
            "moment" => Subject::Column(Kind::Moment),
            "tier" => Subject::Tiers,
            "month" => Subject::Timeframe(Frame::Month),
            "hour_of_day" => Subject::Timeframe(Frame::HourOfDay),
            "day_of_week" => Subject::Timeframe(Frame::DayOfWeek),
            "raw" => Subject::Timeframe(Frame::Raw),
            _ => return Err(CaseFault::NoSuchCase),
        })
    }

    /// The kind of what is filtered.
    pub fn kind(self) -> Kind {
        match self {
            Subject::Column(kind) => kind,
            Subject::Tiers | Subject::Timeframe(Frame::HourOfDay) => Kind::Number,
            Subject::Timeframe(Frame::DayOfWeek) => Kind::Text,
            Subject::Timeframe(Frame::Raw) => Kind::Moment,
            Subject::Timeframe(_) => Kind::Day,
        }
    }

    /// A field over the first column of the first view.
    pub fn field(self, alloc: Global) -> Result<Field, NoMemory>
        ensures { IfOk result (λ field. has_tiers field.shape ≡ true) }
    {
        Ok(Field {
            name: Text::from_str(alloc, "t.x")?,
            part: 0,
            kind: self.kind(),
            expr: Expr::leaf(alloc, Node::Column(0, 0))?,
            shape: self.shape(alloc)?,
        })
    }

    fn shape(self, alloc: Global) -> Result<Shape, NoMemory>
        ensures { IfOk result (λ shape. has_tiers shape ≡ true) }
    {
        match self {
            Subject::Column(_) => Ok(Shape::Plain),
            Subject::Tiers => tiers(alloc),
            Subject::Timeframe(frame) => Ok(Shape::Frame(0, frame)),
        }
    }
}

// The tiers of the bounds 0, 10 and 20.
fn tiers(alloc: Global) -> Result<Shape, NoMemory>
    ensures { IfOk result (λ shape. has_tiers shape ≡ true) }
{
    let mut bounds = Items::new(alloc);
    bounds.push(0)?;
    bounds.push(10)?;
    bounds.push(20)?;
    Ok(Shape::Tier(bounds))
}
