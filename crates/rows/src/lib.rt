// A row of calls on a new workbook.
#![tactic(auto)]

ghost use Rattle.std.specs.Prelude.{◌≡◌, ◌<◌, ◌≤◌, map, length, MatchResult};
ghost use Rattle.mapping.specs.Memory.{over};
ghost use Rattle.rows.specs.Rows.{step_of, answer_to, after_step, row_answers, after_row, Done};
ghost use Rattle.workbook.specs.Books.{made_of, state_of};

use formula::Literal;
use mapping::Mapping;
use store::Store;
use workbook::{Parts, Sheet, Workbook, WorkbookFault};

// A call with its arguments: a size, or the literals of a clause.
#[derive(Clone, Copy, Debug, PartialEq, Eq)]
pub enum Call<'a> {
    Declare(u32),
    State(&'a [Literal]),
}

// What a call answers: the number of the variable or clause, or why not.
pub type Answer = Result<u32, WorkbookFault>;

// Makes one call.
fn make_call<M: Mapping, S: Store>(workbook: &mut Workbook<M, S>, call: &Call) -> Answer
    ensures answer { result ≡ answer_to (made_of M.Mapping.meaning S.Store.terms workbook.old) (state_of S.Store.contents workbook.old) (step_of call.now) }
    ensures after { state_of S.Store.contents workbook.new ≡ after_step (made_of M.Mapping.meaning S.Store.terms workbook.old) (state_of S.Store.contents workbook.old) (step_of call.now) }
    ensures same { made_of M.Mapping.meaning S.Store.terms workbook.new ≡ made_of M.Mapping.meaning S.Store.terms workbook.old }
{
    match call {
        Call::Declare(size) => workbook.declare(*size),
        Call::State(literals) => workbook.state(literals),
    }
}

// Makes every call of a row, in order.
// kept: places for answers are handed in, more of them than calls perhaps, and what is behind is promised to stay.
fn make_calls<M: Mapping, S: Store>(
    workbook: &mut Workbook<M, S>,
    row: &[Call],
    answers: &mut [Answer],
)
    requires { length row.now ≤ length answers.old }
    ensures answers { answers.new ≡ over (row_answers (made_of M.Mapping.meaning S.Store.terms workbook.old) (state_of S.Store.contents workbook.old) (map step_of row.now)) answers.old }
    ensures after { state_of S.Store.contents workbook.new ≡ after_row (made_of M.Mapping.meaning S.Store.terms workbook.old) (state_of S.Store.contents workbook.old) (map step_of row.now) }
    ensures same { made_of M.Mapping.meaning S.Store.terms workbook.new ≡ made_of M.Mapping.meaning S.Store.terms workbook.old }
{
    for (i, call) in row.iter().enumerate() {
        // kept: the index, since a proof knows nothing of places that are written through `answers.iter_mut().zip(row)` (tried).
        answers[i] = make_call(workbook, call);
    }
}

// A workbook after a row of calls, and the number of clauses that its store says it holds.
pub struct Row<M, S> {
    pub workbook: Workbook<M, S>,
    pub clauses: u64,
}

// Makes a new workbook and every call of a row on it, with the answers at the front of `answers`.
// Where there are fewer places than calls, nothing is done and everything comes back.
pub fn make_row<M: Mapping, S: Store>(
    book: u32,
    parts: Parts<M, S>,
    row: &[Call],
    answers: &mut [Answer],
) -> Result<Row<M, S>, Parts<M, S>>
    ensures { MatchResult result
        (λ x. Done (record { book = book; meaning = M.Mapping.meaning; terms = S.Store.terms parts.store }) (S.Store.contents parts.store) (map step_of row.now) answers.old answers.new (made_of M.Mapping.meaning S.Store.terms x.workbook) (state_of S.Store.contents x.workbook) x.clauses)
        (λ x. (length answers.old < length row.now) × (answers.new ≡ answers.old) × (x ≡ parts)) }
{
    if answers.len() < row.len() {
        return Err(parts);
    }
    let mut workbook = Workbook::new(book, parts);
    make_calls(&mut workbook, row, answers);
    let clauses = workbook.stored_clauses();
    Ok(Row { workbook, clauses })
}
