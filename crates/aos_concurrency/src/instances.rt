// The laws at a small machine, whose activities make lists of commands, and at its compiled form.

ghost use Rattle.std.specs.Prelude.{◌≡◌, ◌≢◌, ℕ, Option, Some, None, List, [], ◌∷◌, true};
ghost use Rattle.aos_base.specs.declared.kernel.LockName.{LockName};
ghost use Rattle.aos_base.specs.declared.kernel.Verdict.{Verdict};
ghost use Rattle.aos_base.specs.declared.kernel.Outcome.TheVariants.{Dead};
ghost use Rattle.aos_base.specs.Lock.{heir, Alike};
ghost use Rattle.aos_base.specs.Book.{On, Runs, on_worker, place_of, outcome};
ghost use Rattle.aos_base.specs.Machine.{Choice, Step, State, execution};
ghost use Rattle.aos_base.specs.Observation.{observation};
ghost use Rattle.aos_concurrency.specs.Mutual.{Mutual};
ghost use Rattle.aos_concurrency.specs.Acting.{acting};
ghost use Rattle.aos_concurrency.specs.Handover.{IsGiven, HandsOver};
ghost use Rattle.aos_concurrency.specs.Private.{GoesOn, IsLent, settled};
ghost use Rattle.aos_concurrency.specs.Toy.{Command, TakesNone, Skip, Shared, Program, Frames, toy, toy_run, coded, coded_run, Nested, IsNested, IsAnyLocal, waits_for_one, up_to_the_release, one_list, another_list, lent_at, settled_at, skipping, idle_at};

/// Mutual exclusion at the machine, where its commands are well nested.
pub fn toy_excludes()
    ensures exclusive { (p : Program) (budget : ℕ) (cs : List Choice) → IsNested p →
        Mutual toy (toy_run p budget cs) }
{}

/// Where no command takes a lock or waits, no execution comes to be Dead.
pub fn toy_lives()
    ensures outcome { (p : Program) (budget : ℕ) (cs : List Choice) →
        TakesNone p.commands → TakesNone p.forked → outcome (toy_run p budget cs).book ≢ Dead }
{}

/// The compiled machine is seen to do the same.
pub fn coded_shows()
    ensures observation { (p : Program) (budget : ℕ) (cs : List Choice) →
        observation toy (toy_run p budget cs) ≡ observation coded (coded_run p budget cs) }
    ensures events { (p : Program) (budget : ℕ) (cs : List Choice) →
        (toy_run p budget cs).book.events ≡ (coded_run p budget cs).book.events }
{}

/// A condition reads the number of its lock alone, so it holds until the heir's turn; and there is
/// such an heir.
pub fn toy_hands_over()
    ensures handed { (p : Program) (budget : ℕ) (before others : List Choice) (entry : Choice)
        (a : ℕ) (l : LockName) (c : ℕ) → IsNested p →
        HandsOver toy IsAnyLocal (toy_run p budget before) entry a l c others }
    ensures given { IsGiven toy (toy_run waits_for_one 100 up_to_the_release) (Step 0) 0
        (LockName.Object 1) 1 }
    ensures nested { IsNested waits_for_one }
{}

/// These two lists are alike, so a release chooses the same of them.
pub fn toy_alike()
    ensures alike { Alike one_list another_list }
    ensures heir { (verdict : ℕ → ℕ → Verdict) → heir verdict one_list ≡ heir verdict another_list }
{}

/// What is left to each that runs stays well nested.
pub fn toy_stays_nested()
    ensures nested { (p : Program) (budget : ℕ) (cs : List Choice) → IsNested p →
        (a : ℕ) (f : Frames) → acting toy (toy_run p budget cs) a ≡ Some f →
        Nested f.rest f.regions }
{}

/// A worker has one activity at most; and worker 0, from which a tick has taken its own, has none
/// while worker 1 makes steps.
pub fn toy_stays_idle()
    ensures one { (p : Program) (budget : ℕ) (cs : List Choice) (w a b : ℕ) →
        place_of (toy_run p budget cs).book.line a ≡ Some (On w) →
        place_of (toy_run p budget cs).book.line b ≡ Some (On w) → a ≡ b }
    ensures idle { on_worker 0 idle_at.book.line ≡ None }
    ensures later { on_worker 0 (execution toy (Step 1 ∷ Step 1 ∷ []) idle_at).book.line ≡ None }
{}

/// Two turns that skip, made elsewhere, are two steps, here also after two steps of another worker.
pub fn toy_settles()
    ensures lent { IsLent 0 0 (lent_at.book.activity 0) (skipping (Skip ∷ Skip ∷ [])) lent_at }
    ensures later { execution toy (Step 0 ∷ Step 0 ∷ []) settled_at ≡
        settled 0 (skipping []) (true ∷ true ∷ []) settled_at }
    ensures settle { (st : State Shared Frames) (w a : ℕ) (f : Frames) (rest : List Command) →
        GoesOn a (true ∷ true ∷ []) st.book → on_worker w st.book.line ≡ Some a →
        (st.book.activity a).next ≡ Runs →
        st.frames a ≡ record f { rest = Skip ∷ Skip ∷ rest } →
        execution toy (Step w ∷ Step w ∷ []) st ≡
        settled a (record f { rest = rest }) (true ∷ true ∷ []) st }
{}
