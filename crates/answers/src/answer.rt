// What C gets back: a number and a count.
ghost use Rattle.answers.specs.Told.{AnswerOf};

use super::refusal::Refusal;

// 0 and a count, or the number of a refusal and 0. The count is of the items written, in each list where there are two, or of the sets where
// sets are written, or for the table check of the basis rings.
#[repr(C)]
#[derive(Clone, Copy)]
pub struct Answer {
    pub number: u8,
    pub count: usize,
}

impl From<Result<usize, Refusal>> for Answer {
    ghost from_gives = { λ told answer. AnswerOf told answer };

    fn from(told: Result<usize, Refusal>) -> Answer {
        match told {
            Ok(count) => Answer { number: 0, count },
            Err(refusal) => Answer {
                number: refusal.number(),
                count: 0,
            },
        }
    }
}
