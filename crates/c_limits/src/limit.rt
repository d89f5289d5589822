// The limits of the profile.

ghost use Rattle.std.specs.Prelude.{◌≡◌};
ghost use Rattle.c_limits.specs.Counts.{most, name_of};

/// A count that the profile limits, in the order in which those that are passed are reported.
#[derive(Clone, Copy, Debug, PartialEq, Eq)]
pub enum Limit {
    /// Tokens of the text, its end not counted.
    Tokens,
    /// Bytes of a name.
    NameLength,
    /// How deep a token is nested.
    Nesting,
    /// Functions that the text defines.
    Functions,
    /// Elements of the pthread_t objects.
    ThreadIds,
    /// Elements of the pthread_mutex_t objects.
    MutexElements,
    /// Elements of the pthread_barrier_t objects.
    BarrierElements,
    /// The longest array of integers.
    OneArray,
    /// Elements of the integer globals, a scalar being one.
    GlobalElements,
    /// printf calls of the text.
    PrintSites,
    /// Elements of the locals and parameters of a thread function and of all that is inlined in it.
    LocalElements,
    /// The weight of a thread function.
    Weight,
}

impl Limit {
    /// Its name in a refusal.
    pub fn name(self) -> &'static str
        ensures { result.now ≡ name_of self }
    {
        match self {
            Limit::Tokens => "tokens",
            Limit::NameLength => "name length",
            Limit::Nesting => "nesting",
            Limit::Functions => "functions",
            Limit::ThreadIds => "thread ids",
            Limit::MutexElements => "mutex elements",
            Limit::BarrierElements => "barrier elements",
            Limit::OneArray => "one array",
            Limit::GlobalElements => "global elements",
            Limit::PrintSites => "printf sites",
            Limit::LocalElements => "local elements",
            Limit::Weight => "weight",
        }
    }

    /// The greatest count that is within it.
    pub fn most(self) -> u32
        ensures { result ≡ most self }
    {
        match self {
            Limit::Tokens | Limit::GlobalElements | Limit::LocalElements => 16_384,
            Limit::NameLength | Limit::ThreadIds => 63,
            Limit::Nesting | Limit::MutexElements => 64,
            Limit::Functions => 128,
            Limit::BarrierElements => 16,
            Limit::OneArray => 4_096,
            Limit::PrintSites => 256,
            Limit::Weight => 8_192,
        }
    }
}

/// A count that is above its limit.
#[derive(Clone, Copy, Debug, PartialEq, Eq)]
pub struct Passed {
    pub limit: Limit,
    /// The inlined counts stop at 1,000,000.
    pub count: u128,
}
