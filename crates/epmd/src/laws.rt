//! Laws of the answers. Each function does nothing; its contract is the law.
ghost use Rattle.std.specs.Prelude.{◌≡◌, ◌<◌, ◌^◌, ◌++◌, ℕ, List};
ghost use Rattle.epmd.specs.Alive.{registered_bytes};
ghost use Rattle.epmd.specs.Port.{Port, SpellsPort, port_bytes, PortFits};

/// What an answer is written as is read as it, and the bytes of a registration are of one alone.
pub fn round_trips()
    ensures alive { (creation other : ℕ) → creation < 2 ^ 32 → other < 2 ^ 32 →
        registered_bytes creation ≡ registered_bytes other → creation ≡ other }
    ensures port { (port : Port) (extra : List ℕ) → PortFits port →
        SpellsPort (port_bytes port ++ extra) port }
{}
