//! Why an input is refused, told in the words of the format: the first line with which its lines begin
//! no script, and in that line the first word that fits no form which the words before it allow.

ghost use Rattle.std.specs.Prelude.{◌≡◌, ℕ, List, Err};
ghost use Rattle.script_text.specs.Causes.{IsCauseOfScript, IsCauseOfReplay};
ghost use Rattle.script_text.specs.Replays.{replay_of};
ghost use Rattle.script_text.specs.Wholes.{script_of};
ghost use Rattle.script_text.specs.declared.error.ScriptError.{ScriptError};

/// Why a text is no script. It is too long. Else there is a first line with which its lines begin no
/// script, and the cause is that of this line: it has no end, or it isn't text, or its words are at
/// fault; these have a first word that fits no form which the words before it allow, and the cause names
/// its place, or they are those of an `lfs` command that isn't right as a whole. Or the lines end too
/// early. Else all lines are in form, and the first of them that evicts a client that isn't there is
/// told. Else it is a script but for too many bytes, or else too much work.
pub fn script_causes()
    ensures causes { (text : List ℕ) (error : ScriptError) → script_of text ≡ Err error → IsCauseOfScript text error }
{}

/// Why a text is no script with a schedule. It, or its script, is too long; or no line begins a
/// schedule. Else the first line of the script with a cause is told, or that its lines end too early.
/// Else the schedule line is told, with the first of its words that is no run; else the first line behind
/// it that says something. Else what is wrong with all lines of the script together.
pub fn replay_causes()
    ensures causes { (text : List ℕ) (error : ScriptError) → replay_of text ≡ Err error → IsCauseOfReplay text error }
{}
