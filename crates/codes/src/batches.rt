// Many reports at once: the register is tested once, and an index of it is made for this call. Each answer is nine numbers of a lent list: its kind, then
// its values. They are counted by those numbers, once all stand there: `place_listed` is set into the loop that answers as long as nobody else calls it.
ghost use Rattle.std.specs.Prelude.{◌≡◌, ◌++◌, ◌*◌, ◌/◌, ◌≤◌, length, drop};
ghost use Rattle.districts.specs.Answers.{answer_of};
ghost use Rattle.districts.specs.Held.{lists_of};
ghost use Rattle.refusals.specs.Verdicts.{verdict, verdict_of};
ghost use Rattle.index.specs.Both.{Indexed};
ghost use Rattle.codes.specs.Codes.{answer_code};
ghost use Rattle.codes.specs.Counts.{tally_of};
ghost use Rattle.codes.specs.Batches.{told, answers_to, tally_to, counted_to, answer_by, answer_in, room_tests, left_by, TallyBy, batch, CountsTold, AllCounted};

use crate::counting::{Counts, place_told, raise};
use crate::telling::{Kind, assigned};
use districts::{Lists, Report, Store};
use index::Index;
use refusals::Refusal;

// How many numbers tell an answer.
const ANSWER: usize = 9;

// An odd list of points, then a list that is too short for the answers; by their lengths.
fn room(points: usize, answers: usize) -> Result<(), Refusal>
    ensures { verdict_of result ≡ verdict (room_tests points answers) }
{
    if points % 2 == 1 {
        return Err(Refusal::NoRing);
    }
    if answers / ANSWER < points / 2 {
        return Err(Refusal::ListTooShort);
    }
    Ok(())
}

// Tells an answer in the first numbers of a list. They are written one by one: `copy_from_slice` asks first whether the two lists overlap, and reads them back from
// memory, which takes three times as long where a point is refused.
fn tell(a: Result<Report, Refusal>, answers: &mut [u64])
    requires { 9 ≤ length answers.old }
    ensures { answers.new ≡ told (answer_code (answer_of a)) ++ drop 9 answers.old }
{
    let mut values = [0; 8];
    let kind = assigned(a, &mut values);
    answers[0] = kind as u64;
    answers[1] = values[0];
    answers[2] = values[1];
    answers[3] = values[2];
    answers[4] = values[3];
    answers[5] = values[4];
    answers[6] = values[5];
    answers[7] = values[6];
    answers[8] = values[7];
}

// By places and not by `chunks_exact_mut`: of a list lent in such parts the prover knows no more than the length afterwards.
fn answer_all(store: &Store, index: &Index, points: &[i32], answers: &mut [u64])
    requires indexed { Indexed store.now.sx.now store.now.sy.now store.now.runs.list.now index.now }
    requires room { 9 * (length points.now / 2) ≤ length answers.old }
    ensures { answers.new ≡ answers_to (answer_by store.now.sx.now store.now.sy.now store.now.runs.list.now points.now) (length points.now / 2) ++ drop (9 * (length points.now / 2)) answers.old }
{
    for i in 0..points.len() / 2 {
        let answer = register::place_listed(store, index, 0, ring::vertex(points, i));
        tell(answer, &mut answers[ANSWER * i..]);
    }
}

// Answers every point, or refuses all of it.
pub fn assign_all(lists: &Lists, points: &[i32], answers: &mut [u64]) -> Result<(), Refusal>
    ensures judged { verdict_of result ≡ batch (lists_of lists.now) points.now (length answers.old) }
    ensures answered { answers.new ≡ left_by (verdict_of result) (answers_to (answer_in (lists_of lists.now) points.now) (length points.now / 2)) answers.old }
{
    let store = lists.usable()?;
    room(points.len(), answers.len())?;
    let mut index = Index::empty();
    index.fill(&store);
    answer_all(&store, &index, points, answers);
    Ok(())
}

// Counts the answer that the first numbers of a list tell, or tells refusal 14 there where its count is full.
fn count_told(answers: &mut [u64], counts: &mut Counts)
    requires { 9 ≤ length answers.old }
    ensures { CountsTold answers.old answers.new counts.old counts.new }
{
    let kind = answers[0];
    if kind == Kind::Refused as u64 {
        return;
    }
    if let Err(full) = raise(place_told(kind, answers[1]), counts) {
        tell(Err(full), answers);
    }
}

// Counts the first n answers that a list tells, each behind those before it.
fn count_all(n: usize, answers: &mut [u64], counts: &mut Counts)
    requires { 9 * n ≤ length answers.old }
    ensures { AllCounted n answers.old answers.new counts.old counts.new }
{
    for i in 0..n {
        count_told(&mut answers[ANSWER * i..], counts);
    }
}

// Answers every point and then counts the answers, or refuses all of it.
pub fn assign_all_counted(
    lists: &Lists,
    points: &[i32],
    answers: &mut [u64],
    counts: &mut Counts,
) -> Result<(), Refusal>
    ensures judged { verdict_of result ≡ batch (lists_of lists.now) points.now (length answers.old) }
    ensures answered { answers.new ≡ left_by (verdict_of result) (answers_to (counted_to (tally_of counts.old) (answer_in (lists_of lists.now) points.now)) (length points.now / 2)) answers.old }
    ensures counted { TallyBy (verdict_of result) (tally_to (tally_of counts.old) (answer_in (lists_of lists.now) points.now) (length points.now / 2)) counts.old counts.new }
{
    assign_all(lists, points, answers)?;
    count_all(points.len() / 2, answers, counts);
    Ok(())
}
