use gathering::DoorLimits;
use sb_mains::Operator;
use sb_model::Text;
use std::fmt;
use tcp_door::{DoorFault, Losses, TcpDoor, Teller};

/// The door of a server, which tells its operator what is to be known at once.
pub type ServerDoor<'a> = TcpDoor<&'a HostRuntime, DoorWatch<'a>>;

/// The address of the door that is told of, and who is told.
#[derive(Clone, Copy)]
pub struct DoorWatch<'a> {
    operator: Operator<'a>,
    address: &'a str,
}

/// How many connections a door lost, as its operator is told.
#[derive(Clone, Copy)]
struct Lost(Losses);

impl fmt::Display for Lost {
    fn fmt<W: fmt::Write>(&self, f: &mut fmt::Formatter<W>) -> fmt::Result {
        let Losses {
            gave_way,
            late,
            cut,
        } = self.0;
        write!(
            f,
            "lost connections: {gave_way} gave way, {late} ran out of time, {cut} were cut"
        )
    }
}

impl<'a> Teller for DoorWatch<'a> {
    fn no_room(&mut self, why: DoorFault) {
        self.operator.say("the address", self.address, &why);
    }

    fn lost(&mut self, losses: Losses) {
        self.operator
            .say("the address", self.address, &Lost(losses));
    }
}

/// The limits of a door at which so many connections are open at once, and so many MiB of answers wait to be taken, at most. All else is
/// as [`DoorLimits::STANDARD`] has it.
pub fn limits_of(peers: u32, answers: u32) -> DoorLimits {
    DoorLimits {
        connections: peers as usize,
        answer_bytes: u64::from(answers) * 1_048_576,
        ..DoorLimits::STANDARD
    }
}

/// The door at an address, as in `127.0.0.1:80` or `[::1]:0`. Without an address, and if it cannot be had, each call fails.
pub fn door_at<'a>(
    rt: &'a HostRuntime,
    operator: Operator<'a>,
    listen: &'a Option<Text>,
    limits: DoorLimits,
) -> ServerDoor<'a> {
    match listen {
        Some(text) => {
            let address = text.as_str();
            let watch = DoorWatch { operator, address };
            TcpDoor::bind(rt, rt.alloc(), address, limits, watch)
        }
        None => TcpDoor::unusable(
            rt,
            DoorWatch {
                operator,
                address: "",
            },
        ),
    }
}

/// Says which port the system chose, if an address leaves it to the system.
pub fn tell_port(operator: Operator<'_>, listen: &Option<Text>, door: &ServerDoor<'_>) {
    let Some(text) = listen else {
        return;
    };
    let address = text.as_str();
    if let Some((_, port)) = address.rsplit_once(':')
        && port.parse::<u16>() == Ok(0)
        && let Some(chosen) = door.local_addr()
    {
        operator.say_is("the address", address, &chosen);
    }
}
