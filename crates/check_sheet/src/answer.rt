ghost use Rattle.command.specs.Reading.{says};
ghost use Rattle.check_sheet.specs.Answers.{Answered, reply_of};

use crate::setup::Setup;
use command::Command;
use groups::sheet::judge_sheet;
use network::network::Network;
use replies::reply::Reply;
use vocabulary::refusal::Refusal;

/// What a command does to the network, and what is replied.
pub(crate) fn answer(setup: &mut Option<Setup>, command: Command) -> Reply
    ensures { Answered setup.old (says command) result setup.new }
{
    carry_out(setup, command).unwrap_or_else(Reply::Refused)
}

/// Carries a command out. Network and model are made once, and before all else.
fn carry_out(setup: &mut Option<Setup>, command: Command) -> Result<Reply, Refusal>
    ensures { Answered setup.old (says command) (reply_of result) setup.new }
{
    match (setup.as_mut(), command) {
        (None, Command::Network { n, model, t }) => {
            *setup = Some(Setup::new(n, model, t)?);
            Ok(Reply::Done)
        }
        (Some(current), Command::Link(a, b)) => {
            current.net.link(a, b)?;
            Ok(Reply::Done)
        }
        (Some(current), Command::Sheet(sheet)) => {
            let standing = judge_sheet(&current.net, &current.model, sheet.as_slice())?;
            Ok(Reply::Judged(standing))
        }
        (None, Command::Link(..) | Command::Sheet(_)) => Ok(Reply::Unreadable),
        (Some(_), Command::Network { .. }) => Ok(Reply::Unreadable),
    }
}
