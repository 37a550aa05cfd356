//! What the program is to do.
use crate::sites::Sites;
use opid::Site;

/// What the program is to do.
#[derive(Debug, Drop, PartialEq, Eq)]
pub enum Plan {
    /// Serve requests from standard input to standard output, with a room of this site.
    Lines {
        /// The room's site.
        site: Site,
        /// The room opens over the input's first line, which is a snapshot.
        resume: bool,
        /// The room's snapshot is written last.
        snapshot: bool,
    },
    /// Print the reading of a version of the snapshot on standard input.
    Text {
        /// The version; the newest where it isn't named.
        version: Option<u32>,
    },
    /// Play the script on standard input over a world.
    World {
        /// The sites that are there before the first line.
        sites: Sites,
    },
    /// Serve rooms over WebSockets, and end once so many connections have ended.
    Serve {
        /// The port of 127.0.0.1 that is listened on, 1 to 65535.
        port: u16,
        /// The site of each room, where it is named.
        site: Option<Site>,
        /// How many connections are accepted, 1 to 65,536, where it is named. Else 65,536, or where rooms are kept so many at one time.
        conns: Option<u32>,
        /// The folder in which the rooms' logs are kept, if they are.
        keep: Option<String>,
        /// How many seconds pass between two turns of keeping, 1 to 3600; where it isn't named, each answer waits until all that it rests
        /// on is kept.
        every: Option<u32>,
        /// A room that is kept begins anew with its text where it nears its limits.
        renew: bool,
        /// The origins of pages that may connect, where some are named or rooms are kept.
        origins: Vec<String>,
        /// Each minute it is told how the rooms are.
        report: bool,
        /// The names of the rooms.
        names: Vec<String>,
    },
}
