// A file is one of one body.

ghost use Rattle.std.specs.Prelude.{◌≡◌, ℕ, List};
ghost use Rattle.cc_pack.specs.File.{file_text};
ghost use Rattle.cc_pack.specs.declared.file.ConfirmedIn.{ConfirmedIn};

/// No two files are the same bytes: what is read from a file is what it was written from.
pub fn files_are_one()
    ensures { (one other : ConfirmedIn) (body rest : List ℕ) → file_text one body ≡ file_text other rest → (one ≡ other) × (body ≡ rest) }
{}
