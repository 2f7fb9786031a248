// Commands are generated and played.
ghost use Rattle.std.specs.Prelude.{◌≡◌, ⊤};
ghost use Rattle.base_model.specs.Faults.{HasCause};
ghost use Rattle.script_lines.specs.Streams.{stream_of};
ghost use Rattle.apei_notify.specs.Chains.{members_of};
ghost use Rattle.apei_script.specs.Sessions.{state_of};
ghost use Rattle.apei_cli.specs.Commands.{line_for, HasSize};
ghost use Rattle.apei_cli.specs.Generated.{IsRefusedIf, PlaysCommands};
ghost use Rattle.apei_cli.specs.Summaries.{IsGenerated};

use crate::generate::command::{Command, number_behind};
use crate::generate::record::sample_record;
use crate::generate::summary::write_summary;
use crate::generate::tally::Tally;
use apei_bytes::{Sink, SinkFault};
use apei_script::Player;
use flash_model::Flash;

/// Plays as many commands as `count` that a seed generates, and then one that counts the records, and writes one line that sums them up.
/// It takes no memory.
pub fn generate<F: Flash, O: Sink>(
    player: &mut Player<F>,
    count: u64,
    seed: u64,
    out: &mut O,
) -> Result<(), SinkFault>
    requires { ⊤ }
    ensures generated { IsGenerated F.tells (stream_of O.tells (O.written out.old) (O.written out.new))
        (state_of player.old.session) (record { seed = seed; count = count }) (state_of player.new.session) result }
    ensures listeners { members_of player.new.chain ≡ members_of player.old.chain }
    ensures cause { HasCause (O.faults out.old) (O.faults out.new) result }
{
    let tally = play_commands(player, count, seed);
    let live = player.count().unwrap_or(0);
    player.stands();
    write_summary(count, &tally, live, player.steps(), out)
}

/// Plays the commands, and tallies them.
fn play_commands<F: Flash>(player: &mut Player<F>, count: u64, seed: u64) -> Tally
    ensures played { PlaysCommands F.tells (state_of player.old.session) seed count (state_of player.new.session)
        result }
    ensures listeners { members_of player.new.chain ≡ members_of player.old.chain }
{
    let mut number = seed;
    let mut tally = Tally::new();
    for _ in 0..count {
        number = number_behind(number);
        let command = Command::of(number);
        let refused = play(player, command);
        player.stands();
        tally.count(command, refused);
    }
    tally
}

/// Plays one command, and answers whether it was refused.
fn play<F: Flash>(player: &mut Player<F>, command: Command) -> bool
    requires { HasSize command }
    ensures played { IsRefusedIf result F.tells (state_of player.old.session) (line_for command)
        (state_of player.new.session) }
    ensures listeners { members_of player.new.chain ≡ members_of player.old.chain }
{
    match command {
        Command::Write { id, size } => {
            let record = sample_record(id, size);
            player.write(&record[..size as usize]).is_err()
        }
        Command::Clear { id } => player.clear(id).is_err(),
        Command::Read { id } => player.read(id).is_err(),
        Command::Next => player.next().is_err(),
    }
}
