// What takes lines.
ghost use Rattle.std.specs.Prelude.{◌≡◌, ◌≤◌, ◌+◌, ℕ, true, false, cond, List, [], ◌++◌, Option, None, Some, IfOk, IfErr, OnOk};
ghost use Rattle.wf_lines.specs.LineStages.{LineEnds};
ghost use Rattle.wf_lines.specs.BegunLines.{BegunLine, begun_line, further};

/// What takes the lines of a file, one after the other.
///
/// It is in a state. The text of a line leaves a state and makes a text, or stops it; so does the end of a whole file. The text that a line makes comes piece by piece: `take` begins the line and makes the first piece, and each `more` makes one piece of those that are held, until none is left.
pub trait Taker {
    /// Why a line, or the end of the file, stops it.
    type Fault: Drop;

    /// What it may be in.
    ghost State: { Type 0 };

    /// What a stage of lines may end in.
    ghost End: { Type 0 };

    /// Whether it is as each line needs it.
    ghost is_ready: { Self → Type 0 };

    /// Whether it is in this state.
    ghost is_at: { Self → State → Type 0 };

    /// Whether a line is taken in one way from this state.
    ghost is_sound: { State → Type 0 };

    /// Whether the text of the line of a number leaves this state, and makes this text.
    ghost takes: { State → ℕ → List ℕ → State → List ℕ → Type 0 };

    /// Whether the text of the line of a number stops it in this end, with this text.
    ghost stops: { State → ℕ → List ℕ → End → List ℕ → Type 0 };

    /// Whether what a line made so far begins each text that it may make.
    ghost begins: { BegunLine State → Type 0 };

    /// Whether this line is begun, and made this so far.
    ghost is_within: { Self → BegunLine State → Type 0 };

    /// How many pieces are held, which this line or a later one makes.
    ghost left: { Self → ℕ };

    /// Whether the end of a whole file makes this text.
    ghost finishes: { State → List ℕ → Type 0 };

    /// Whether the end of a whole file stops it in this end, with this text.
    ghost stops_at_end: { State → End → List ℕ → Type 0 };

    /// The ends that lines come to whatever takes them.
    ghost ends: { LineEnds End };

    /// The end that a fault is; none is want of memory.
    ghost end_of: { Self.Fault → Option End };

    /// What a fault may be.
    ghost is_fault: { Self.Fault → Type 0 } = { λ _. Unit {0} };

    /// Whether memory may be wanting.
    ghost wants_memory: { Type 0 };

    /// The piece that was made last.
    ghost made: { Self → List ℕ };

    /// What may be known of it. What is known stays known, whatever it takes.
    ghost Known: { Type 0 };

    /// Whether this is known of it.
    ghost is_known: { Self → Known → Type 0 };

    /// May look at what stands from the line that is taken next on. This only saves time: nothing that is told changes.
    fn look_ahead(&mut self, text: &[u8])
        requires { is_ready self.old }
        ensures ready { is_ready self.new }
        ensures at { (s : State) → is_at self.old s → is_at self.new s }
        ensures known { (k : Known) → is_known self.old k → is_known self.new k }
    {
        let _ = text;
    }

    /// Begins the line of a number, from 1, which has this text, and makes its first piece. None of the pieces that are held is made.
    fn take(&mut self, number: u64, text: &[u8]) -> Result<(), Self::Fault>
        requires { is_ready self.old }
        ensures ready { OnOk result (is_ready self.new) }
        ensures within { OnOk result ((s : State) → is_at self.old s → is_within self.new (begun_line s number text.now (made self.new))) }
        ensures begins { OnOk result ((s : State) → is_at self.old s → begins (begun_line s number text.now (made self.new))) }
        ensures left { OnOk result (left self.old ≤ left self.new) }
        ensures stopped { IfErr result (λ f. (e : End) → end_of f ≡ Some e → (s : State) → is_at self.old s → stops s number text.now e (made self.new)) }
        ensures memory { IfErr result (λ f. end_of f ≡ None → wants_memory) }
        ensures wanting { IfErr result (λ f. end_of f ≡ None → (s : State) → is_at self.old s → begins (begun_line s number text.now (made self.new))) }
        ensures fault { IfErr result is_fault }
        ensures known { (k : Known) → is_known self.old k → is_known self.new k };

    /// Makes one piece more of the line that is begun, of those that are held. False where none is left that the line sets free: then the line is taken.
    fn more(&mut self) -> Result<bool, Self::Fault>
        requires { is_ready self.old }
        ensures ready { OnOk result (is_ready self.new) }
        ensures one { IfOk result (λ more. left self.old ≡ left self.new + cond more 1 0) }
        ensures within { IfOk result (λ more. more ≡ true → (p : BegunLine State) → is_within self.old p → is_within self.new (further p (made self.new))) }
        ensures taken { IfOk result (λ more. more ≡ false → (p : BegunLine State) → is_within self.old p →
            (q : State) × takes p.state p.number p.text q (p.made ++ made self.new) × is_at self.new q) }
        ensures begins { OnOk result ((p : BegunLine State) → is_within self.old p → begins (further p (made self.new))) }
        ensures stopped { IfErr result (λ f. (e : End) → end_of f ≡ Some e → (p : BegunLine State) → is_within self.old p → stops p.state p.number p.text e (p.made ++ made self.new)) }
        ensures memory { IfErr result (λ f. end_of f ≡ None → wants_memory) }
        ensures wanting { IfErr result (λ f. end_of f ≡ None → (p : BegunLine State) → is_within self.old p → begins (further p (made self.new))) }
        ensures fault { IfErr result is_fault }
        ensures known { (k : Known) → is_known self.old k → is_known self.new k };

    /// Takes the end of a whole file.
    fn finish(&mut self) -> Result<(), Self::Fault>
        requires { is_ready self.old }
        ensures finished { OnOk result ((s : State) → is_at self.old s → finishes s (made self.new) × is_at self.new s) }
        ensures stopped { IfErr result (λ f. (e : End) → end_of f ≡ Some e → (s : State) → is_at self.old s → stops_at_end s e (made self.new)) }
        ensures memory { IfErr result (λ f. end_of f ≡ None → wants_memory × (made self.new ≡ [])) }
        ensures fault { IfErr result is_fault }
        ensures known { (k : Known) → is_known self.old k → is_known self.new k };

    /// The piece that was made last.
    fn made(&self) -> &[u8]
        ensures { result.now ≡ made self.now };
}
