// The answers of the register's calls, as a line says them.
ghost use Rattle.std.specs.Prelude.{◌≡◌};
ghost use Rattle.districts.specs.Answers.{answer_of};
ghost use Rattle.refusals.specs.Verdicts.{verdict_of};
ghost use Rattle.changes.specs.Answers as Changes;
ghost use Rattle.wording.specs.Lines.{ok, said_of};
ghost use Rattle.stream.specs.Replies.{saying_of, belonging, changing};

use districts::Report;
use refusals::Refusal;
use wording::Said;

pub fn founded(answer: Result<(), Refusal>) -> Said
    ensures { said_of result ≡ saying_of (verdict_of answer) ok }
{
    match answer {
        Ok(()) => Said::Ok,
        Err(r) => Said::Refused(r.number()),
    }
}

pub fn changed(answer: Result<usize, Refusal>) -> Said
    ensures { said_of result ≡ changing (Changes.answer_of answer) }
{
    match answer {
        Ok(d) => Said::OkWith(d),
        Err(r) => Said::Refused(r.number()),
    }
}

pub fn assigned(answer: Result<Report, Refusal>) -> Said
    ensures { said_of result ≡ belonging (answer_of answer) }
{
    match answer {
        Ok(report) => Said::Sorted(report.class),
        Err(r) => Said::Refused(r.number()),
    }
}
