//! Whether a node does its work.
ghost use Rattle.std.specs.Prelude.{◌≡◌};
ghost use Rattle.pg_page.specs.Health.{health_of, health_status, health_line};

/// Whether a node does its work, and why not.
#[derive(Clone, Copy, Debug, PartialEq, Eq)]
pub enum Health {
    Well,
    /// It is to end, and lets nobody in.
    Draining,
    /// Memory is at its end, and the next life hasn't begun yet.
    NoMemory,
}

impl Health {
    pub fn of(is_draining: bool, wants_memory: bool) -> Health
        ensures { result ≡ health_of is_draining wants_memory }
    {
        if is_draining {
            Health::Draining
        } else if wants_memory {
            Health::NoMemory
        } else {
            Health::Well
        }
    }

    /// The status of the answer of HTTP: 200, or 503.
    pub fn status(self) -> u16
        ensures { result ≡ health_status self }
    {
        match self {
            Health::Well => 200,
            Health::Draining | Health::NoMemory => 503,
        }
    }

    /// The answer, one line.
    pub fn line(self) -> &'static str
        ensures { result.now ≡ health_line self }
    {
        match self {
            Health::Well => "ok\n",
            Health::Draining => "draining\n",
            Health::NoMemory => "no memory\n",
        }
    }
}
