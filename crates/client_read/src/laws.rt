//! What callers of a read can rely on.

ghost use Rattle.client_read.specs.Ends.{EndsAtOnce};
ghost use Rattle.client_read.specs.Faults.{FaultsAreTold};
ghost use Rattle.client_read.specs.Left.{OpenLeaves, StepLowers};
ghost use Rattle.client_read.specs.Told.{TellsWhatItTook};

/// A read has a number of steps left: two for each piece that isn't a hole, and two, once it is
/// open or goes on with what others hold. A step lowers it by one where no take fails and the cookie isn't lost, and the last one
/// leaves none.
pub fn a_step_lowers_what_is_left()
    ensures lowers { StepLowers }
    ensures opened { OpenLeaves }
{}

/// In every run of a read an answer with bytes is fixed only at a confirm whose cookie is held. It
/// is the bytes of its takes, joined and cut at the size that the file has there. The takes aren't
/// empty, adjoin and make up the asked range. Each is of a component of the layout got at the open
/// that is fresh and isn't `offline`: zeros where the component doesn't have its objects, else what
/// the object held at a call that this read made of its target since that open.
pub fn a_read_tells_what_it_took()
    ensures right { TellsWhatItTook }
{}

/// A read answers at once, and without takes, only so: at its open, `NoFile` where there is no file
/// of its name, and `AllOffline` with the lowest byte that nobody may answer; after a failed take,
/// while its cookie is held, `Fault` with the lowest byte that nobody is left to answer and the
/// failed calls of components that have it.
pub fn a_read_ends_at_once()
    ensures ends { EndsAtOnce }
{}

/// In every run of a read a fault tells the lowest byte of the range that nobody is left to answer
/// without the components whose takes failed since its last open, and of the calls that failed since
/// then those of components that have that byte, in the order of the calls.
pub fn a_read_tells_which_calls_failed()
    ensures faults { FaultsAreTold }
{}
