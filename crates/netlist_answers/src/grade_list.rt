//! The list of the grades of a netlist's faults.
ghost use Rattle.std.specs.Prelude.{◌≡◌, ◌+◌, ◌<◌, ◌^◌, [], ◌∷◌, ◌++◌, All, count_by, length};
ghost use Rattle.std.specs.Fmt.{decimal};
ghost use Rattle.buffered_sink.specs.Output.{Prints, output};
ghost use Rattle.fault_secure.specs.Circuit.{nets};
ghost use Rattle.fault_secure.specs.StuckAt.{fault_cell};
ghost use Rattle.tsc_net.specs.Fault.{stuck_at};
ghost use Rattle.fault_grades.specs.Grade.{grade_as};
ghost use Rattle.grading_laws.specs.Counts.{is_alarm, is_silent, is_unseen};
ghost use Rattle.netlist_answers.specs.GradeText.{grade_counts, grade_end, grade_line, grade_lines, grade_list, sums_line};
ghost use Rattle.netlist_answers.specs.Printout.{IsGraded};

use crate::fault_words::print_fault;
use crate::printout::GradedNetlist;
use buffered_sink::{Page, Piece, print, print_all};
use fault_grades::{Grade, GradeList};
use tsc_io::{Sink, WriteFault};
use tsc_net::{Fault, Faults, Netlist};

/// Prints the listed faults of a netlist with their grades, a line each, and how many have which grade, in time linear in the length of
/// the text. It takes no memory.
///
/// # Errors
///
/// The sink failed.
pub fn print_grade_list<K: Sink>(
    sink: &mut K,
    page: &mut Page,
    graded: &GradedNetlist,
) -> Result<(), WriteFault>
    requires graded { IsGraded graded.now }
    ensures printed { Prints result (output (K.written sink.old) (K.faults sink.old) page.old) (output (K.written sink.new) (K.faults sink.new) page.new) (grade_list graded.now.net graded.now.grades) }
{
    print_grades(sink, page, &graded.net, &graded.faults, &graded.grades)?;
    print_counts(sink, page, &graded.grades)
}

/// Prints one line per fault.
fn print_grades<K: Sink>(
    sink: &mut K,
    page: &mut Page,
    net: &Netlist,
    faults: &Faults,
    grades: &GradeList,
) -> Result<(), WriteFault>
    requires known { All (λ fault. fault_cell fault < nets net.now.circuit) faults.now }
    requires sized { length grades.now ≡ length faults.now }
    ensures printed { Prints result (output (K.written sink.old) (K.faults sink.old) page.old) (output (K.written sink.new) (K.faults sink.new) page.new) (grade_lines net.now faults.now grades.now) }
{
    for place in 0..faults.len() {
        print_grade(sink, page, net, faults.get(place), grades.get(place))?;
    }
    Ok(())
}

/// Prints the line of a fault with its grade.
fn print_grade<K: Sink>(
    sink: &mut K,
    page: &mut Page,
    net: &Netlist,
    fault: Fault,
    grade: Grade,
) -> Result<(), WriteFault>
    requires known { fault_cell (stuck_at fault) < nets net.now.circuit }
    ensures printed { Prints result (output (K.written sink.old) (K.faults sink.old) page.old) (output (K.written sink.new) (K.faults sink.new) page.new) (grade_line net.now (stuck_at fault) (grade_as grade)) }
{
    print_fault(sink, page, net, fault)?;
    print_end(sink, page, grade)
}

/// Prints ` alarm STEP`, ` silent STEP` or ` unseen`, and an LF.
fn print_end<K: Sink>(sink: &mut K, page: &mut Page, grade: Grade) -> Result<(), WriteFault>
    ensures printed { Prints result (output (K.written sink.old) (K.faults sink.old) page.old) (output (K.written sink.new) (K.faults sink.new) page.new) (grade_end (grade_as grade) ++ 10 ∷ []) }
{
    match grade {
        Grade::Alarm(step) => print_step(sink, page, b" alarm ", step),
        Grade::Silent(step) => print_step(sink, page, b" silent ", step),
        Grade::Unseen => print(sink, page, b" unseen\n"),
    }
}

/// Prints a word and a step, and an LF.
fn print_step<K: Sink>(
    sink: &mut K,
    page: &mut Page,
    word: &[u8],
    step: u32,
) -> Result<(), WriteFault>
    ensures printed { Prints result (output (K.written sink.old) (K.faults sink.old) page.old) (output (K.written sink.new) (K.faults sink.new) page.new) (word.now ++ (decimal step ++ 10 ∷ [])) }
{
    let end = [
        Piece::Text(word),
        Piece::Number(step as u64),
        Piece::Text(b"\n"),
    ];
    print_all(sink, page, &end)
}

/// Prints `alarm N silent M unseen K`.
fn print_counts<K: Sink>(
    sink: &mut K,
    page: &mut Page,
    grades: &GradeList,
) -> Result<(), WriteFault>
    ensures printed { Prints result (output (K.written sink.old) (K.faults sink.old) page.old) (output (K.written sink.new) (K.faults sink.new) page.new) (grade_counts grades.now) }
{
    let counts = counts_of(grades);
    print_sums(sink, page, counts)
}

/// How many grades are of which kind.
#[derive(Clone, Copy)]
struct GradeCounts {
    alarm: usize,
    silent: usize,
    unseen: usize,
}

/// How many of the grades are of which kind.
fn counts_of(grades: &GradeList) -> GradeCounts
    ensures alarm { result.alarm ≡ count_by is_alarm grades.now }
    ensures silent { result.silent ≡ count_by is_silent grades.now }
    ensures unseen { result.unseen ≡ count_by is_unseen grades.now }
{
    let mut counts = GradeCounts {
        alarm: 0,
        silent: 0,
        unseen: 0,
    };
    for place in 0..grades.len() {
        counts = with_one(counts, grades.get(place));
    }
    counts
}

/// The same with a grade more.
fn with_one(counts: GradeCounts, grade: Grade) -> GradeCounts
    requires alarm { counts.alarm + 1 < 2 ^ 64 }
    requires silent { counts.silent + 1 < 2 ^ 64 }
    requires unseen { counts.unseen + 1 < 2 ^ 64 }
    ensures alarm { result.alarm ≡ counts.alarm + count_by is_alarm (grade_as grade ∷ []) }
    ensures silent { result.silent ≡ counts.silent + count_by is_silent (grade_as grade ∷ []) }
    ensures unseen { result.unseen ≡ counts.unseen + count_by is_unseen (grade_as grade ∷ []) }
{
    let GradeCounts {
        alarm,
        silent,
        unseen,
    } = counts;
    match grade {
        Grade::Alarm(_) => GradeCounts {
            alarm: alarm + 1,
            silent,
            unseen,
        },
        Grade::Silent(_) => GradeCounts {
            alarm,
            silent: silent + 1,
            unseen,
        },
        Grade::Unseen => GradeCounts {
            alarm,
            silent,
            unseen: unseen + 1,
        },
    }
}

/// Prints `alarm N silent M unseen K`, of these counts.
fn print_sums<K: Sink>(sink: &mut K, page: &mut Page, counts: GradeCounts) -> Result<(), WriteFault>
    ensures printed { Prints result (output (K.written sink.old) (K.faults sink.old) page.old) (output (K.written sink.new) (K.faults sink.new) page.new) (sums_line counts.alarm counts.silent counts.unseen) }
{
    let line = [
        Piece::Text(b"alarm "),
        Piece::Number(counts.alarm as u64),
        Piece::Text(b" silent "),
        Piece::Number(counts.silent as u64),
        Piece::Text(b" unseen "),
        Piece::Number(counts.unseen as u64),
        Piece::Text(b"\n"),
    ];
    print_all(sink, page, &line)
}
