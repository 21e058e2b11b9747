//! What is set for a node.
ghost use Rattle.std.specs.Prelude.{◌≡◌, ◌≤◌};
ghost use Rattle.sup_replica.specs.Configs.{config_of, default};

use std::marker::Model;

/// How often children may restart, and how many deltas are held. Made by [`Config::new`]. A contract sees it as a record.
#[derive(Clone, Copy, Debug, PartialEq, Eq)]
pub struct Config {
    intensity: u16,
    period: u32,
    buffer: u16,
}

impl Model for Config {
    ghost use Rattle.sup_replica.specs.Configs.{Config, AreInLimits};

    ghost Value = { Config };

    ghost view = { λ c. record { intensity = c.intensity; period = c.period; buffer = c.buffer } };

    ghost inverse = { λ c. record { intensity = c.intensity; period = c.period; buffer = c.buffer } };

    ghost invariant = { λ c. AreInLimits c.intensity c.period c.buffer };
}

impl Config {
    /// These settings; none where the intensity is above 1000, the period isn't from 1 to 1,000,000, or the buffer isn't from
    /// 1 to 1024.
    pub fn new(intensity: u16, period: u32, buffer: u16) -> Option<Config>
        ensures { result ≡ config_of intensity period buffer }
    {
        if intensity <= 1000
            && 1 <= period
            && period <= 1_000_000
            && 1 <= buffer
            && buffer <= 1024
        {
            Some(Config {
                intensity,
                period,
                buffer,
            })
        } else {
            None
        }
    }

    /// How many restarts within the period don't end the node's membership.
    pub fn intensity(&self) -> u16
        ensures value { result ≡ self.now.intensity }
        ensures within { result ≤ 1000 }
    {
        self.intensity
    }

    /// How long a restart counts, in the unit of the moments that acts are given: seconds, say.
    pub fn period(&self) -> u32
        ensures value { result ≡ self.now.period }
        ensures within { (1 ≤ result) × (result ≤ 1000000) }
    {
        self.period
    }

    /// How many of the newest deltas are held for peers that lack them.
    pub fn buffer(&self) -> u16
        ensures value { result ≡ self.now.buffer }
        ensures within { (1 ≤ result) × (result ≤ 1024) }
    {
        self.buffer
    }
}

/// As Erlang/OTP's supervisor has it: one restart within five seconds. 64 deltas are held.
impl Default for Config {
    fn default() -> Config
        ensures { result ≡ default }
    {
        Config {
            intensity: 1,
            period: 5,
            buffer: 64,
        }
    }
}
