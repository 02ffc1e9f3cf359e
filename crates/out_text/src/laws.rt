//! Laws of the definitions: a line of the packet log tells its time, host, act, protocol, ends and
//! size, and of a segment the flags and both numbers; a file's name tells host, program, id and kind.

ghost use Rattle.std.specs.Prelude.{◌≡◌, ℕ, ◌<◌, ◌^◌, List, IsTrue};
ghost use Rattle.sim_base.specs.Ascii.{slash};
ghost use Rattle.out_text.specs.Files.{file_name};
ghost use Rattle.out_text.specs.Laws.{lacks, IsLogged, TellsSame};
ghost use Rattle.out_text.specs.Log.{LogLine, log_line};
ghost use Rattle.out_text.specs.declared.files.FileKind.{FileKind};

/// Lines of the packet log that have the same text tell the same, where names of hosts have no space.
pub fn one_line()
    ensures { (a b : LogLine) → IsLogged a → IsLogged b → log_line a ≡ log_line b → TellsSame a b }
{}

/// Files that have the same name are of the same process and hold the same, where names of hosts
/// have no slash.
pub fn one_file()
    ensures { (h g p q : List ℕ) (m n : ℕ) (k l : FileKind) → IsTrue (lacks slash h) → IsTrue (lacks slash g) → m < 2 ^ 32 → n < 2 ^ 32
        → file_name h p m k ≡ file_name g q n l → (h ≡ g) × (p ≡ q) × (m ≡ n) × (k ≡ l) }
{}
