use super::Parity;
use exact::shown::{Parts, Shown};

impl Shown for Parity {
    fn parts(self) -> Parts {
        Parts {
            top: self as i32,
            bottom: 1,
        }
    }
}
