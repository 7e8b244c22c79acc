//! Laws over all lines. Each is the contract of a function that does nothing; whoever needs one calls it.

ghost use Rattle.std.specs.Prelude.{◌≡◌, ◌↔◌, ℕ, List, [], Some};
ghost use Rattle.dn_model.specs.declared.router.RouterDef.{RouterDef};
ghost use Rattle.dn_model.specs.Cases.{AreRouters};
ghost use Rattle.dn_command.specs.declared.command.Command.{Command};
ghost use Rattle.dn_command.specs.Commands.{command_of};
ghost use Rattle.dn_command.specs.Spelling.{CanBeAsked, AsksFor, spelt};

/// The spelling of a command that can be asked for is read as that command.
pub fn a_spelled_command_is_read()
    ensures { (rs : List RouterDef) (c : Command) → AreRouters [] rs → CanBeAsked rs c →
        command_of rs (spelt rs c) ≡ Some c }
{}

/// A line is read as a command exactly if it asks for it: it is the command's spelling, or `step` where that is
/// `step 1`, and the command can be asked for. So no line asks for two commands.
pub fn a_line_is_read_as_what_it_asks_for()
    ensures { (rs : List RouterDef) (line : List ℕ) (c : Command) → AreRouters [] rs →
        ((command_of rs line ≡ Some c) ↔ AsksFor rs c line) }
{}
