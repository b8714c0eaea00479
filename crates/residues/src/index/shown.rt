use super::Index;
use exact::shown::{Parts, Shown};

impl Shown for Index {
    fn parts(self) -> Parts {
        Parts {
            top: i32::from(self.teeth),
            bottom: 1,
        }
    }
}
