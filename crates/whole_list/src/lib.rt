// A caller of the sheet that works in a trial: a list is taken whole or not at all.
#![tactic(auto)]

ghost use Rattle.std.specs.Prelude.{◌≡◌};
ghost use Rattle.sheet.specs.Lent.{SameRest, SameLender};
ghost use Rattle.sheet.specs.Stored.{stored};
ghost use Rattle.whole_list.specs.Whole.{checking_whole, whole_report};
ghost use Rattle.whole_list.specs.declared.WholeFault.TheVariants.{NotOpened, Stopped};

use elimination::record::Record;
use exact::number::Number;
use exact::report::Report;
use sheet::fault::{ListFault, TrialFault};
use sheet::sheet::Sheet;

// Why a list is not taken.
#[derive(Clone, Copy, PartialEq, Eq, Debug)]
pub enum WholeFault {
    // No trial could be opened for it.
    NotOpened(TrialFault),
    // The check stopped, and what it had held was taken back.
    Stopped(ListFault),
}

impl From<TrialFault> for WholeFault {
    ghost from_gives = { λ x r. r ≡ NotOpened x };

    fn from(fault: TrialFault) -> WholeFault {
        WholeFault::NotOpened(fault)
    }
}

impl From<ListFault> for WholeFault {
    ghost from_gives = { λ x r. r ≡ Stopped x };

    fn from(fault: ListFault) -> WholeFault {
        WholeFault::Stopped(fault)
    }
}

impl From<WholeFault> for Report {
    ghost from_gives = { λ x r. r ≡ whole_report x };

    fn from(fault: WholeFault) -> Report {
        match fault {
            WholeFault::NotOpened(fault) => Report::from(fault),
            WholeFault::Stopped(fault) => Report::from(fault),
        }
    }
}

// Checks a list inside a trial, and answers what the check answered. Where every line passed, they stay; where one was refused, those
// before it are taken back. With eight trials open no line is stated.
pub fn check_whole<K: Number>(
    sheet: &mut Sheet<K>,
    list: &[i32],
    first: u32,
    records: &mut [Record<K>],
) -> Result<usize, WholeFault>
    ensures answer { result ≡ (checking_whole K.kind (stored sheet.old) list.now first records.old).answer }
    ensures stored { stored sheet.new ≡ (checking_whole K.kind (stored sheet.old) list.now first records.old).stored }
    ensures records { records.new ≡ (checking_whole K.kind (stored sheet.old) list.now first records.old).records }
    ensures rest { SameRest sheet.old sheet.new }
    ensures lender { SameLender sheet.old sheet.new }
{
    let trial = sheet.open()?;
    // From here to the close no path may leave, so the answer is kept, with no `?`.
    let answer = sheet.check(list, first, records);
    // Whether it is kept or withdrawn goes by the answer; the trial moves into one of them.
    let closed = if answer.is_ok() {
        sheet.keep(trial)
    } else {
        sheet.withdraw(trial)
    };
    // Checking opens and closes no trial, so this one is still the innermost.
    closed.unwrap();
    answer.map_err(WholeFault::from)
}
