//! The link: a command is offered, the clock ticks, and a frame comes.
ghost use Rattle.std.specs.Prelude.{◌≡◌};
ghost use Rattle.link.specs.Sending.{first_number, max_repeats};
ghost use Rattle.stack_driver.specs.Records.{link_from};
ghost use Rattle.stack_driver.specs.Turns.{link_turn_of};

use super::numbers::of_receive;
use super::records::link_from;

/// Three calls in turn, each of the link that the last one left; the answer is that of the received frame.
#[unsafe(no_mangle)]
pub extern "C" fn stack_link(
    next: u8,
    waiting: u8,
    sent: u32,
    repeats: u8,
    command: u8,
    clock: u32,
    later: u32,
    reply: u8,
    number: u8,
) -> u32
    ensures { result ≡ (link_turn_of first_number max_repeats (link_from next waiting sent repeats) command clock later
        reply number).number }
{
    let mut link = link_from(next, waiting, sent, repeats);
    let _ = link.offer(command, clock);
    let _ = link.tick(later);
    of_receive(link.receive(reply, number))
}
