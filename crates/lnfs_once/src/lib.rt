//! Requests that a network may lose, repeat and reorder act at most once, over any server and any client that meet a few
//! laws about single steps. `Schedule` defines what a schedule is and what acting once means, `Laws` what a server owes, and
//! `Machine` what a client owes.
#![tactic(auto)]

ghost use Rattle.std.specs.Prelude.{List};
ghost use Rattle.lnfs_once.specs.Server.{Server};
ghost use Rattle.lnfs_once.specs.Laws.{ClientRows, IsLawful, IsBare};
ghost use Rattle.lnfs_once.specs.Schedule.{ActsOnce, Turn, run, start};
ghost use Rattle.lnfs_once.specs.Machine.{Machine, IsMachine, MachineTurn, viewed, machine_run, machine_start};

/// A server, the client's rows in it, and that it meets the laws.
pub trait Serves {
    ghost server: { Server };

    ghost rows: { ClientRows server };

    ghost lawful: { IsLawful rows };
}

/// Over every schedule from a state on in which the client has nothing, each request acts at most once, and the client takes
/// the first reply that was given to it.
pub fn acts_once<X: Serves>()
    ensures { (v : X.server.V) → IsBare X.rows v → (turns : List (Turn X.server)) →
        ActsOnce X.server (run X.server turns (start X.server v)) }
{}

/// A server that meets the laws, and a client's machine whose requests and replies are those of the client of the law.
pub trait Asks {
    ghost server: { Server };

    ghost rows: { ClientRows server };

    ghost lawful: { IsLawful rows };

    ghost machine: { Machine server };

    ghost fits: { IsMachine rows machine };
}

/// So it is over every schedule of a machine.
pub fn machine_acts_once<X: Asks>()
    ensures { (v : X.server.V) → IsBare X.rows v → (turns : List (MachineTurn X.machine)) →
        let after = machine_run X.machine turns (machine_start X.machine v) in
        ActsOnce X.server (viewed X.machine after) }
{}
