// Check 7: whether a journal is well formed, in one pass over the used words.
ghost use Rattle.std.specs.Prelude.{◌≡◌, ◌<◌, ◌≤◌, [], length, drop};
ghost use Rattle.journal.specs.Ranges.{row_limit};
ghost use Rattle.journal.specs.Journal.{read_rows};
ghost use Rattle.journal.specs.inner.Check.{candidates_of, place_of, survey_of, survey};

use crate::read::read_row;
use refusals::Refusal;

// The predecessor of a further row: where its record starts, its number and how many candidates it has.
#[derive(Clone, Copy)]
pub struct Predecessor {
    pub place: usize,
    pub row: usize,
    pub candidates: usize,
}

// What check 7 finds: the number of rows, of used words, the predecessor of a further row, and the minute of the last one, or 0.
#[derive(Clone, Copy)]
pub struct Survey {
    pub rows: usize,
    pub used: usize,
    pub latest: Option<Predecessor>,
    pub minute: u32,
}

// How many candidates it has, 0 without one.
pub fn candidates_of(latest: Option<Predecessor>) -> usize
    ensures { result ≡ candidates_of latest }
{
    latest.map_or(0, |p| p.candidates)
}

// Where its record starts; the first word without one.
pub fn place_of(latest: Option<Predecessor>) -> usize
    ensures { result ≡ place_of latest }
{
    latest.map_or(0, |p| p.place)
}

// Record by record over a journal of used words alone.
pub fn walk(journal: &[u32]) -> Result<Survey, Refusal>
    requires { (1 ≤ length journal.now) × (length journal.now < 268435456) }
    ensures { result ≡ survey_of (length journal.now) (read_rows row_limit [] (drop 1 journal.now)) }
{
    let mut survey = Survey {
        rows: 0,
        used: 1,
        latest: None,
        minute: 0,
    };
    while survey.used < journal.len() {
        if survey.rows == 65535 {
            return Err(Refusal::Journal);
        }
        let Some(record) = read_row(&journal[survey.used..], survey) else {
            return Err(Refusal::Journal);
        };
        let latest = if record.scores {
            Some(Predecessor {
                place: survey.used,
                row: survey.rows,
                candidates: record.candidates,
            })
        } else {
            survey.latest
        };
        survey = Survey {
            rows: survey.rows + 1,
            used: survey.used + record.length,
            latest,
            minute: record.minute,
        };
    }
    Ok(survey)
}

pub fn read_journal(journal: &[u32]) -> Result<Survey, Refusal>
    ensures { result ≡ survey journal.now }
{
    if journal.len() == 0 {
        return Err(Refusal::Journal);
    }
    let word = journal[0];
    let used = (word % 268435456) as usize;
    if word / 268435456 != 5 || used == 0 || journal.len() < used {
        return Err(Refusal::Journal);
    }
    walk(&journal[..used])
}
