//! What callers can rely on of the files.

ghost use Rattle.std.specs.Prelude.{◌≡◌, ℕ, List};
ghost use Rattle.meta_server.specs.Files.{changed, File, file_of};
ghost use Rattle.meta_server.specs.Sound.{AreSound, IsUnderCopy, IsFileChange};

/// A change of one file, that leaves it its number and name and leaves it sound, leaves all files
/// sound: their numbers ascend and are below the next one, their names differ, and there are at most
/// 16. Where it leaves the state of the layout, a copy that is under way stays so.
pub fn files_stay_sound()
    ensures changed { (next number : ℕ) (change : File → File) (files : List File)
        → IsFileChange files number change → AreSound next files → AreSound next (changed number change files) }
    ensures copied { (other number : ℕ) (change : File → File) (files : List File)
        → ((f : File) → (change f).number ≡ f.number)
        → ((f : File) → (change f).layout.state ≡ f.layout.state)
        → IsUnderCopy (file_of other files) → IsUnderCopy (file_of other (changed number change files)) }
{}
