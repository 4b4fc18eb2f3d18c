// The answer of a call as a list has it: a number, 0 where the call is done or else its cause's, and a figure, 0 beside a cause.
use rules::Refusal;

pub fn told<T: Into<u64>>(answer: Result<T, Refusal>) -> (u64, u64) {
    match answer {
        Ok(figure) => (0, figure.into()),
        Err(refusal) => (number(refusal), 0),
    }
}

// Whether a call answers by this number, and every figure is zero: a done call by 0, a refused one by its cause's.
pub fn is_refused<T: PartialEq + Drop>(answer: Result<T, Refusal>, cause: u64, zero: T) -> bool {
    match answer {
        Ok(figures) => (cause == 0) & (figures == zero),
        Err(refusal) => number(refusal) == cause,
    }
}

fn number(refusal: Refusal) -> u64 {
    u64::from(u32::from(refusal))
}
