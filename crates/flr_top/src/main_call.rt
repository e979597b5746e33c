//! The program.

ghost use Rattle.std.specs.Prelude.{◌≡◌, ◌⊎◌, ℕ, IfSome};
ghost use Rattle.std.specs.Io.KnownBytes.{Appends, Keeps};
ghost use Rattle.flr_base.specs.Causes.{Rose};
ghost use Rattle.flr_statuses.specs.Statuses.{IsStatus, LeavesFront, TakesFront, Tells, TellsFront, Told, TookFront, read_fault_line};
ghost use Rattle.flr_migrate.specs.Migrations.{IsMigrated, IsNoScript, IsRefusal as IsNotMigrated};
ghost use Rattle.flr_soak.specs.Drawn.{IsReport as IsRandomReport};
ghost use Rattle.flr_replay.specs.Replays.{IsGoodInput, IsReport, IsRefusal as IsNotReplayed};
ghost use Rattle.flr_run.specs.Runs.{IsReport as IsReportOfRun};
ghost use Rattle.flr_soak.specs.Counts.{IsSoakLine};
ghost use Rattle.flr_top.specs.Forms.{AsksMigrate, AsksNothing, AsksRandom, AsksReplay, AsksRun, AsksSoak, words_line};

use flr_base::{NoMemory, Sink, Source};
use flr_migrate::migrate_main;
use flr_replay::replay_main;
use flr_run::run_main;
use flr_soak::{random_main, soak_main};
use flr_statuses::written;
use flr_words::{Words, read_words};
use std::alloc::Global;
use std::sync::Wait;
use std::thread::Threads;
use turn_crew::Gate;

/// The program: `run`, `replay`, `soak SEED CLIENTS CALLS`, `migrate` or `random SEED`, by its words.
///
/// Status 2: the words are others, and one line says which are known. The source isn't touched. The other
/// statuses are those of `run_main`, `replay_main`, `soak_main`, `migrate_main` and `random_main`, which answer
/// and write as they do by themselves. Status 6 comes also where memory runs out in the reading of the words. At `run`
/// the gate is called by the thread of each client, and the call may wait without end.
pub fn flr_main<S: Source, K: Sink, G: Gate + Sync, R: Threads + Wait + Sync>(
    rt: &R,
    alloc: Global,
    words: &[String],
    input: &mut S,
    out: &mut K,
    gate: &G,
) -> u8
    // Run: the input spells a script, and what is written is the report of a run of it.
    ensures ran { result ≡ 0 → AsksRun words.now → IfSome (S.left input.old) (λ bytes. Tells IsReportOfRun bytes (K.taken out.old) (K.taken out.new)) }
    ensures not_run { result ≡ 3 → AsksRun words.now → IfSome (S.left input.old) (λ bytes. Tells IsNoScript bytes (K.taken out.old) (K.taken out.new)) }
    ensures run_front { result ≡ 5 → AsksRun words.now → IfSome (S.left input.old) (λ bytes. TellsFront IsReportOfRun IsNoScript bytes (S.faults input.old) (S.faults input.new) (K.taken out.old) (K.taken out.new)) }
    ensures run_left { result ≡ 6 → AsksRun words.now → IfSome (S.left input.old) (λ bytes. LeavesFront IsReportOfRun bytes (K.taken out.old) (K.taken out.new)) }
    ensures runs { AsksRun words.now → IsStatus result }
    // Replay: the input spells a script and a schedule, and what is written is the report of that very run.
    // Such an input is never refused.
    ensures replayed { result ≡ 0 → AsksReplay words.now → IfSome (S.left input.old) (λ bytes. Tells IsReport bytes (K.taken out.old) (K.taken out.new)) }
    ensures not_replayed { result ≡ 3 → AsksReplay words.now → IfSome (S.left input.old) (λ bytes. Tells IsNotReplayed bytes (K.taken out.old) (K.taken out.new)) }
    ensures replays_good { result ≡ 3 → AsksReplay words.now → IfSome (S.left input.old) (λ bytes. IsGoodInput bytes → ⊥) }
    ensures replay_front { result ≡ 5 → AsksReplay words.now → IfSome (S.left input.old) (λ bytes. TellsFront IsReport IsNotReplayed bytes (S.faults input.old) (S.faults input.new) (K.taken out.old) (K.taken out.new)) }
    ensures replay_left { result ≡ 6 → AsksReplay words.now → IfSome (S.left input.old) (λ bytes. LeavesFront IsReport bytes (K.taken out.old) (K.taken out.new)) }
    ensures replays { AsksReplay words.now → IsStatus result }
    // Soak: the line is that of the script and the run that the numbers make.
    ensures soaked { (seed clients calls : ℕ) → result ≡ 0 → AsksSoak seed clients calls words.now → Told (IsSoakLine seed clients calls) (K.taken out.old) (K.taken out.new) }
    ensures soak_front { (seed clients calls : ℕ) → result ≡ 5 → AsksSoak seed clients calls words.now → TookFront (IsSoakLine seed clients calls) (K.taken out.old) (K.taken out.new) }
    ensures soak_left { (seed clients calls : ℕ) → result ≡ 6 → AsksSoak seed clients calls words.now → Keeps (K.taken out.old) (K.taken out.new) }
    ensures soaks { (seed clients calls : ℕ) → AsksSoak seed clients calls words.now → (input.new ≡ input.old) × ((result ≡ 0) ⊎ ((result ≡ 5) ⊎ (result ≡ 6))) }
    // Migrate: what is written is the printed form of the script that the input spells. It spells that script again.
    ensures migrated { result ≡ 0 → AsksMigrate words.now → IfSome (S.left input.old) (λ bytes. Tells IsMigrated bytes (K.taken out.old) (K.taken out.new)) }
    ensures not_migrated { result ≡ 3 → AsksMigrate words.now → IfSome (S.left input.old) (λ bytes. Tells IsNotMigrated bytes (K.taken out.old) (K.taken out.new)) }
    ensures migrate_front { result ≡ 5 → AsksMigrate words.now → IfSome (S.left input.old) (λ bytes. TellsFront IsMigrated IsNotMigrated bytes (S.faults input.old) (S.faults input.new) (K.taken out.old) (K.taken out.new)) }
    ensures migrate_left { result ≡ 6 → AsksMigrate words.now → Keeps (K.taken out.old) (K.taken out.new) }
    ensures migrates { AsksMigrate words.now → IsStatus result }
    // Random: the input spells a script, and what is written is the report of its run by the numbers of the seed.
    ensures drew { (seed : ℕ) → result ≡ 0 → AsksRandom seed words.now → IfSome (S.left input.old) (λ bytes. Tells (IsRandomReport seed) bytes (K.taken out.old) (K.taken out.new)) }
    ensures not_drawn { (seed : ℕ) → result ≡ 3 → AsksRandom seed words.now → IfSome (S.left input.old) (λ bytes. Tells IsNoScript bytes (K.taken out.old) (K.taken out.new)) }
    ensures random_front { (seed : ℕ) → result ≡ 5 → AsksRandom seed words.now → IfSome (S.left input.old) (λ bytes. TellsFront (IsRandomReport seed) IsNoScript bytes (S.faults input.old) (S.faults input.new) (K.taken out.old) (K.taken out.new)) }
    ensures random_left { (seed : ℕ) → result ≡ 6 → AsksRandom seed words.now → IfSome (S.left input.old) (λ bytes. LeavesFront (IsRandomReport seed) bytes (K.taken out.old) (K.taken out.new)) }
    ensures draws { (seed : ℕ) → AsksRandom seed words.now → IsStatus result }
    // Other words: one line says which are known, and the source isn't touched.
    ensures words { result ≡ 2 → AsksNothing words.now }
    ensures words_line { result ≡ 2 → Appends (K.taken out.old) (K.taken out.new) words_line }
    ensures words_front { result ≡ 5 → AsksNothing words.now → TakesFront (K.taken out.old) (K.taken out.new) words_line }
    ensures words_left { result ≡ 6 → AsksNothing words.now → Keeps (K.taken out.old) (K.taken out.new) }
    ensures untouched { AsksNothing words.now → (input.new ≡ input.old) × ((result ≡ 2) ⊎ ((result ≡ 5) ⊎ (result ≡ 6))) }
    ensures read { result ≡ 4 → Rose (S.faults input.old) (S.faults input.new) }
    ensures read_line { result ≡ 4 → Appends (K.taken out.old) (K.taken out.new) read_fault_line }
    ensures write { result ≡ 5 → Rose (K.faults out.old) (K.faults out.new) }
    ensures no_fault { result ≡ 6 → (S.faults input.new ≡ S.faults input.old) × (K.faults out.new ≡ K.faults out.old) }
{
    match read_words(alloc, words) {
        Ok(Words::Run) => run_main(rt, alloc, input, out, gate),
        Ok(Words::Replay) => replay_main(alloc, input, out),
        Ok(
            Words::Soak {
                seed,
                clients,
                calls,
            },
        ) => soak_main(alloc, seed, clients, calls, out),
        Ok(Words::Migrate) => migrate_main(alloc, input, out),
        Ok(Words::Random { seed }) => random_main(alloc, seed, input, out),
        Ok(Words::Other) => written(
            out,
            b"flr: words: run | replay | soak SEED CLIENTS CALLS | migrate | random SEED\n",
            2,
        ),
        Err(NoMemory) => 6,
    }
}
