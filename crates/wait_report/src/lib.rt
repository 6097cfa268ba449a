// The report on transactions that wait for each other, of a sound state: the rows are refused, or a cycle is shown.
#![tactic(auto)]

ghost use Rattle.std.specs.Prelude.{◌≡◌, true, ℕ, ◌<◌, length};
ghost use Rattle.rules.specs.Editions.{edition1};
ghost use Rattle.rules.specs.Waiting.{Found};
ghost use Rattle.leaf_set.specs.Sets.{sets};
ghost use Rattle.state_whole.specs.Whole.{Intact};
ghost use Rattle.wait_report.specs.declared.Ring.{Ring};
ghost use Rattle.wait_report.specs.Reported.{aside, ReportedSound, refusal_told, number_told, ring_told};

use engine_portion::Engine;
use wait_graph::RowRefusal;
use wait_row::Rows;

// A cycle of transactions that point to each other: its length, 0 where there is none, and the transactions in order, with zeros after.
#[repr(C)]
#[derive(Clone, Copy)]
pub struct Ring {
    pub length: u8,
    pub transactions: [u8; 24],
}

// A report's answer, and what is shown: a refused one shows what was there, since nekahuiro_waiting answers a number and leaves a ring (`Reported` is of both).
#[derive(Drop)]
pub struct Report {
    pub ring: Ring,
    pub number: u8,
}

// A refused report shows what was there.
pub fn refused(ring: Ring, n: u8) -> Report
    ensures { (result.ring ≡ ring) × (result.number ≡ n) }
{
    Report { ring, number: n }
}

// Why a report on a sound state is refused: there are too many rows, or a row is refused.
#[derive(Clone, Copy, Debug, PartialEq, Eq)]
enum ReportRefusal {
    TooManyRows,
    Row(RowRefusal),
}

impl ReportRefusal {
    // The number that the report answers.
    fn number(self) -> u8
        ensures { result ≡ refusal_told self }
    {
        match self {
            ReportRefusal::TooManyRows => 26,
            ReportRefusal::Row(refusal) => refusal.number(),
        }
    }
}

// A cycle of these pointings, or none.
fn show_cycle(points: &[u32; 24]) -> Ring
    requires { (length points.now ≡ 24) × ((t u : ℕ) → sets points.now t u ≡ true → u < 24) }
    ensures { Found (sets points.now) result.length result.transactions }
{
    let mut transactions = [0u8; 24];
    let length = wait_cycle::find(points, &mut transactions).unwrap_or(0);
    Ring {
        length,
        transactions,
    }
}

// What is shown on a sound state.
fn ring_of(e: Engine, list: Rows) -> Result<Ring, ReportRefusal>
    requires { Intact edition1 (aside e) }
    ensures { (ring : Ring) → ReportedSound e list ring (number_told result) (ring_told ring result) }
{
    let n = list.count;
    if 24 < n {
        return Err(ReportRefusal::TooManyRows);
    }
    let parent = e.parent;
    let depth = e.depth;
    let line = e.line;
    let held = e.held;
    let retained = e.retained;
    let words = list.words;
    let rows = &words[..n];
    match wait_graph::check_rows(&depth, rows) {
        Err(refusal) => Err(ReportRefusal::Row(refusal)),
        Ok(()) => {
            let points = wait_graph::pointings(&parent, &depth, &line, &held, &retained, rows);
            Ok(show_cycle(&points))
        }
    }
}

// The report on a sound state.
pub fn report_sound(e: Engine, list: Rows, ring: Ring) -> Report
    requires { Intact edition1 (aside e) }
    ensures { ReportedSound e list ring result.number result.ring }
{
    match ring_of(e, list) {
        Ok(shown) => Report {
            ring: shown,
            number: 0,
        },
        Err(refusal) => refused(ring, refusal.number()),
    }
}
