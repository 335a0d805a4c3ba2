// A run that grows by events.
ghost use Rattle.std.specs.Prelude.{◌≡◌, ℕ, not, List, [], IfErr, OnOk, OnErr};
ghost use Rattle.wf_model.specs.declared.event.Event.{Event};
ghost use Rattle.wf_model.specs.Grammar.{Grammar};
ghost use Rattle.wf_model.specs.Faults.{is_nil};
ghost use Rattle.wf_intake.specs.Applied.{number_in};
ghost use Rattle.wf_intake.specs.Growing.{GrowsBy, StaysRun, IsRootTest, IsChildrenTest, IsNumberFor, HasNoFault, IsFaultOrWant, WritesEvent};

use wf_model::{Event, Name, RunFault};

/// A run that grows by events, and makes a text of them.
pub trait Grows {
    /// The grammar of the run.
    ghost grammar: { Self → Grammar };

    /// The greatest number of its instances.
    ghost most: { Self → ℕ };

    /// Whether it is the run of these events.
    ghost is_run: { Self → List Event → Type 0 };

    /// The text that is written of the events of a run.
    ghost written: { Grammar → List Event → List ℕ };

    /// The text that was made since it was cleared.
    ghost text: { Self → List ℕ };

    /// What may be known of it. What is known stays known, whatever it takes.
    ghost Known: { Type 0 };

    /// Whether this is known of it.
    ghost is_known: { Self → Known → Type 0 };

    /// Whether the run has started.
    fn is_started(&self) -> bool
        ensures { (events : List Event) → is_run self.now events → result ≡ not (is_nil events) };

    /// Whether the run was started with this name.
    fn is_root(&self, name: &[u8]) -> bool
        ensures { IsRootTest is_run self.now name.now result };

    /// The number of the instance of a name, in order of making, where one stands in the run.
    fn find(&self, name: &[u8]) -> Option<u32>
        ensures { (events : List Event) → is_run self.now events → result ≡ number_in (grammar self.now) events name.now };

    /// Whether the instance of a number was expanded into instances of these names.
    fn are_children(&self, number: u32, names: &[Name]) -> bool
        ensures { (events : List Event) → is_run self.now events → IsChildrenTest (grammar self.now) events number names.now result };

    /// Applies an event, if it extends the run, and makes its text behind the text so far. The number is that of the instance that it expands, which was looked up before. After an error the run and the text are as they were.
    fn apply(&mut self, number: Option<u32>, event: &Event) -> Result<(), RunFault>
        requires { IsNumberFor grammar is_run self.old event.now number }
        ensures run { OnOk result (GrowsBy is_run self.old self.new event.now) }
        ensures extends { OnOk result (HasNoFault grammar most is_run self.old event.now) }
        ensures text { OnOk result (WritesEvent grammar is_run written text self.old self.new event.now) }
        ensures refused { IfErr result (IsFaultOrWant grammar most is_run self.old event.now) }
        ensures unchanged { OnErr result (StaysRun is_run self.old self.new) }
        ensures same_text { OnErr result (text self.new ≡ text self.old) }
        ensures grammar { grammar self.new ≡ grammar self.old }
        ensures most { most self.new ≡ most self.old }
        ensures known { (k : Known) → is_known self.old k → is_known self.new k };

    /// Clears the text. The run stays.
    fn clear(&mut self)
        ensures text { text self.new ≡ [] }
        ensures run { StaysRun is_run self.old self.new }
        ensures grammar { grammar self.new ≡ grammar self.old }
        ensures most { most self.new ≡ most self.old }
        ensures known { (k : Known) → is_known self.old k → is_known self.new k };

    /// The text that was made since it was cleared.
    fn text(&self) -> &[u8]
        ensures { result.now ≡ text self.now };
}
