// The two clocks of a session (RFC 8490, 6.2): since when each runs, and the timeouts that hold.
ghost use Rattle.std.specs.Prelude.{◌≡◌};
ghost use Rattle.session.specs.Clocks.{started as started_at, received as received_at, granted as granted_to, expired as expired_at};

use dso::Timeouts;

// RFC 8490, 6.2: the timeouts until others are granted.
const FIRST_INACTIVITY: u32 = 15000;

const FIRST_KEEPALIVE: u32 = 15000;

// RFC 8490, 6.4.1: a server aborts no session that has been inactive for less.
const LEAST_INACTIVITY: u64 = 5000;

// Times and timeouts are in milliseconds.
#[derive(Clone, Copy)]
pub struct Clocks {
    // When the inactivity clock was last restarted.
    pub active: u64,
    // When the keepalive clock was last restarted.
    pub alive: u64,
    // The inactivity timeout.
    pub inactivity: u32,
    // The keepalive interval.
    pub keepalive: u32,
}

impl Clocks {
    // Both clocks, started when the session is opened.
    #[tactic(auto, unfolding(crate::specs::Clocks::started))]
    pub fn started(t: u64) -> Self
        ensures { result ≡ started_at t }
    {
        Clocks {
            active: t,
            alive: t,
            inactivity: FIRST_INACTIVITY,
            keepalive: FIRST_KEEPALIVE,
        }
    }

    // After a received message that does not abort, where they lie; `keepalive` says whether it is a Keepalive, which leaves the
    // inactivity clock.
    #[tactic(auto, unfolding(crate::specs::Clocks::received))]
    pub fn restart(&mut self, keepalive: bool, t: u64)
        ensures { self.new ≡ received_at keepalive t self.old }
    {
        *self = Clocks {
            active: if keepalive { self.active } else { t },
            alive: t,
            ..*self
        };
    }

    // With the timeouts that a Keepalive reply carries.
    #[tactic(auto, unfolding(crate::specs::Clocks::granted))]
    pub fn granted(self, timeouts: Timeouts) -> Self
        ensures { result ≡ granted_to timeouts.inactivity timeouts.keepalive self }
    {
        Clocks {
            inactivity: timeouts.inactivity,
            keepalive: timeouts.keepalive,
            ..self
        }
    }

    // Whether a tick at `t` aborts the session. No time has passed where a clock's start is later.
    #[tactic(auto, unfolding(crate::specs::Clocks::expired))]
    pub fn expired(self, subscribed: bool, t: u64) -> bool
        ensures { result ≡ expired_at subscribed t self }
    {
        2 * u64::from(self.keepalive) <= t.saturating_sub(self.alive)
            || !subscribed
                && LEAST_INACTIVITY.max(2 * u64::from(self.inactivity))
                    <= t.saturating_sub(self.active)
    }
}
