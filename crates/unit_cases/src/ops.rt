use crate::fault::CaseFault;
use crate::lists::Listed;
use lk_types::Op;
use std::alloc::Global;

// A type of measures by its name.
impl Listed for Op {
    fn read(_: Global, text: &str) -> Result<Op, CaseFault> {
        match text {
            "count" => Ok(Op::Count),
            "count_distinct" => Ok(Op::CountDistinct),
            "sum" => Ok(Op::Sum),
            "average" => Ok(Op::Average),
            "min" => Ok(Op::Min),
            "max" => Ok(Op::Max),
            "sum_distinct" => Ok(Op::SumDistinct),
            "average_distinct" => Ok(Op::AverageDistinct),
            "number" => Ok(Op::Number),
            _ => Err(CaseFault::NoSuchCase),
        }
    }
}
