use super::Ratio;
use exact::shown::{Parts, Shown};

impl Shown for Ratio {
    fn parts(self) -> Parts {
        Parts {
            top: self.num,
            bottom: self.den,
        }
    }
}
