// Opening, striking, and asking for the predecessor.
ghost use Rattle.std.specs.Prelude.{◌≡◌};
ghost use Rattle.journal.specs.Call.{opening, striking, preceding};
ghost use Rattle.journal.specs.inner.Strike.{RowsAtLeast, end_of};

use crate::check::read_journal;
use refusals::Refusal;

// The predecessor of the next fix: its row, from 0, and how many candidates it has.
#[derive(Clone, Copy)]
pub struct PrecedingRow {
    pub row: u32,
    pub candidates: usize,
}

// An empty journal, whatever the slice held: check 12.
pub fn open(journal: &mut [u32]) -> Result<(), Refusal>
    ensures answer { result ≡ (opening journal.old).0 }
    ensures words_left { journal.new ≡ (opening journal.old).1 }
{
    if journal.len() == 0 {
        return Err(Refusal::Room);
    }
    journal[0] = 0x5000_0001;
    Ok(())
}

// Where the last n records start, by the lengths at their ends.
pub fn end_before(journal: &[u32], n: usize) -> usize
    requires { RowsAtLeast journal.now n }
    ensures { result ≡ end_of journal.now n }
{
    let mut at = (journal[0] % 268435456) as usize;
    for _ in 0..n {
        at -= (journal[at - 1] % 268435456) as usize;
    }
    at
}

// The last n rows, empty ones counted, no longer stand: checks 7 and 13.
pub fn strike(journal: &mut [u32], n: u32) -> Result<(), Refusal>
    ensures answer { result ≡ (striking journal.old n).0 }
    ensures words_left { journal.new ≡ (striking journal.old n).1 }
{
    let survey = read_journal(journal)?;
    if survey.rows < n as usize {
        return Err(Refusal::Row);
    }
    let end = end_before(journal, n as usize);
    journal[0] = 0x5000_0000 + end as u32;
    Ok(())
}

// The row that the next fix's distances count from, and its number of candidates: check 7.
pub fn predecessor(journal: &[u32]) -> Result<Option<PrecedingRow>, Refusal>
    ensures { result ≡ preceding journal.now }
{
    let Ok(found) = read_journal(journal) else {
        return Err(Refusal::Journal);
    };
    match found.latest {
        None => Ok(None),
        Some(latest) => Ok(Some(PrecedingRow {
            row: latest.row as u32,
            candidates: latest.candidates,
        })),
    }
}
