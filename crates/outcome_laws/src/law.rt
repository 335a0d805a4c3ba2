// Laws of what the program does: the contracts of functions that do nothing. The first three are instances of the laws that the families bring.
ghost use Rattle.outcome_laws.specs.ConsultIsDecide.{ConsultIsDecideLaw};
ghost use Rattle.outcome_laws.specs.GoodCalls.{GoodCallLaw};
ghost use Rattle.outcome_laws.specs.Laws.{AskIsTraceLaw, IngestGrowsLaw, LabelsAnswerLaw, LabelsTellLaw, ListedLaw, OneOutcomeLaw, ReorderedAnswersLaw, ReorderedFilesLaw, SameLinesLaw, SomeOutcomeLaw, ToldRunLaw};
ghost use Rattle.outcome_laws.specs.SameInstances.{SameInstancesLaw};
ghost use Rattle.outcome_laws.specs.WordsTell.{WordsTellLaw};

use package_laws::{consult_written_law, read_back_law};
use wf_stage::Commands;
use wf_top::Families;

/// The words and the files leave one end and one text at most.
pub fn one_outcome_law()
    ensures { OneOutcomeLaw }
{
    Families::one_outcome();
}

/// The words and the files leave an end and a text: each call has an outcome.
pub fn some_outcome_law()
    ensures { SomeOutcomeLaw }
{
    Families::some_outcome();
}

/// Where the words are a command, each file is read and tells what the command wants of it, and the words that are labels are labels, no end is left but that all is done.
pub fn good_call_law()
    ensures { GoodCallLaw }
{
    Families::good_call();
}

/// What `ingest` writes over a file of events begins what it writes over each that goes on from it, however either call ends: also where a report is held at the end of the first file, and is an orphan there, and comes to be ready in the later one.
pub fn ingest_grows_law()
    ensures { IngestGrowsLaw }
{}

/// Where the reports of a file of events are taken whole, they tell an accepted run, which has the events that are reported and no others, each once.
pub fn told_run_law()
    ensures { ToldRunLaw }
{}

/// A file with the lines of a file that tells a run, in whatever order and repeated, reports the events of this run and nothing else.
pub fn same_lines_law()
    ensures { SameLinesLaw }
{}

/// Neither the order of the reports in EVENTS nor their repetition matters: a file that reports the events of a run, and nothing else, tells this run in another order. `ingest` over it ends in Done and writes a label file with the same entries. What `trace` writes over both files is the same, and so is what `ask` writes over both label files.
pub fn reordered_files_law()
    ensures { ReorderedFilesLaw }
{
    some_outcome_law();
}

/// Under a safe view, lines of queries are answered alike over files that report the same run, and over the label files that `ingest` writes of them: one text, and one end.
pub fn reordered_answers_law()
    ensures { ReorderedAnswersLaw }
{}

/// A query is answered from the label file of a run as it is answered by the run, however the run is finished under a safe view.
pub fn labels_tell_law()
    ensures { LabelsTellLaw }
{}

/// A query by words is answered from the label file of a run as it is answered by the run, however the run is finished under a safe view whose lift by the automaton is safe.
pub fn words_tell_law()
    ensures { WordsTellLaw }
{}

/// Under a safe view, what is listed over the label file of a run for an item is what the run answers yes to, item by item, however it is finished.
pub fn listed_law()
    ensures { ListedLaw }
{}

/// Lines of queries are answered over the label file of a run as they are over its events: one text, and one end.
pub fn labels_answer_law()
    ensures { LabelsAnswerLaw }
{}

/// What `ask` writes over the label file that `ingest` wrote is what `trace` writes over the events.
pub fn ask_is_trace_law()
    ensures { AskIsTraceLaw }
{}

/// What `consult` answers over the package that `package` wrote is what `decide` answers over the specification and the view. A first label that `consult` refuses, `decide` refuses; and where `consult` refuses the second, `decide` refuses one of the two.
pub fn consult_is_decide_law()
    ensures { ConsultIsDecideLaw }
{
    read_back_law();
    consult_written_law();
}

/// A run that `trace` reads and a run that `ingest` labels have the same instances after the same events: the same names, modules and children, in the same order.
pub fn same_instances_law()
    ensures { SameInstancesLaw }
{}
