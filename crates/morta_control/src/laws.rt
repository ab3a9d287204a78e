//! Laws of the rounds of a controller. Each function does nothing when it is called: its contract is the law.

ghost use Rattle.std.specs.Prelude.{◌≡◌, ◌≢◌, ℕ, ◌+◌, ◌*◌, ◌/◌, ◌≤◌, List, ◌∷◌, ◌++◌, length, fold, All};
ghost use Rattle.decima.specs.Rates.{Rate};
ghost use Rattle.morta_task.specs.declared.schemes.Config.{Config};
ghost use Rattle.morta_task.specs.Entries.{EntryView};
ghost use Rattle.morta_task.specs.Legal.{IsLegalLog};
ghost use Rattle.morta_task.specs.LogView.{LogView};
ghost use Rattle.morta_control.specs.ControllerPromise.{MayBeAsked};
ghost use Rattle.morta_control.specs.Decisions.{Probe, Optimises, versions, calibrate, fewer, more, optimise, decide, control_asks};
ghost use Rattle.morta_control.specs.Rounds.{probes_of, HaveTicks, IsGreatest, probes_made, floor_log2};

/// Says what a round keeps: the first of its probes than which none of them has a greater rate. A round of calibrating
/// probes each version that the entry offers; in a round of optimising the best probe before it counts as the first of
/// the round's. Each rate has a tick at least.
pub fn kept_is_the_greatest()
    ensures calibrated { (workers : ℕ) (e : EntryView) (rates : List Rate) → HaveTicks rates → length rates ≡ length (versions workers e)
        → (kept : Probe) × IsGreatest kept (probes_of (versions workers e) rates)
        × (fold (decide workers e) (calibrate workers e) rates ≡ optimise workers (workers / 2) kept) }
    ensures optimised { (workers half : ℕ) (e : EntryView) (best : Probe) (left : List Config) (rates : List Rate) → 1 ≤ length left
        → 1 ≤ best.rate.ticks → HaveTicks rates → length rates ≡ length left
        → (kept : Probe) × IsGreatest kept (best ∷ probes_of left rates)
        × (fold (decide workers e) (Optimises half best left) rates ≡ optimise workers (half / 2) kept) }
{}

/// Says how few probes there are: from where calibrating begins until a configuration is monitored no more intervals
/// are probes, whatever their rates, than the entry offers versions, and two for each time that the number of workers
/// can be halved.
pub fn probes_are_few()
    ensures { (workers : ℕ) (e : EntryView) (rates : List Rate) → 1 ≤ workers
        → probes_made workers e (calibrate workers e) rates ≤ length (versions workers e) + 2 * floor_log2 workers }
{}

/// Says that no round of optimising probes the configuration that is the best so far.
pub fn no_probe_twice()
    ensures { (workers half : ℕ) (best : Probe) → 1 ≤ half
        → All (λ (c : Config). c ≢ best.config) (fewer half best.config ++ more workers half best.config) }
{}

/// Says that in a legal log each request is the one that is decided for its entry behind the intervals before it, since
/// each interval of a legal log is of the entry at hand.
pub fn requests_are_decided()
    ensures { (workers : ℕ) (entries : List EntryView) (log : LogView) → IsLegalLog (MayBeAsked workers) entries log
        → IsLegalLog (λ e before ask. ask ≡ control_asks workers e before) entries log }
{}
