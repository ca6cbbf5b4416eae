//! Laws of the reading.
ghost use Rattle.std.specs.Prelude.{◌≡◌, ℕ, List};
ghost use Rattle.command_words.specs.Commands.{IsRepair, HasNumbersInRange};
ghost use Rattle.command_words.specs.Words.{Given, Reads, nothing_given};
ghost use Rattle.command_words.specs.declared.types.Program.{Program};
ghost use Rattle.command_words.specs.declared.types.RepairWords.{RepairWords};

/// Words have one reading at most.
pub fn words_have_one_reading()
    ensures { (program : Program) → (words : List (List ℕ)) → (first second : Given) →
        Reads program nothing_given words first → Reads program nothing_given words second →
        first ≡ second }
{}

/// The numbers of a command of `alod` are those that its options may have.
pub fn commands_have_numbers_in_range()
    ensures { (words : List (List ℕ)) → (command : RepairWords) →
        IsRepair words command → HasNumbersInRange command }
{}
