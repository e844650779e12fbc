// What takes the place of binders in the orders that replace them.
ghost use Rattle.std.specs.Prelude.{◌≡◌};
ghost use Rattle.terms.specs.declared.Purpose.TheVariants.{Instance, Context, Family};

use terms::{Binders, Parameters, Part, Purpose};

// The row at a place that has no tokens.
fn nothing_at(place: usize) -> Part
    ensures { result ≡ record { from = place; end = place } }
{
    Part {
        from: place,
        end: place,
    }
}

// What takes the place of binders in `instantiate`.
pub fn instantiation<'a>(entries: Part, receivers: Part) -> Binders<'a>
    ensures { result ≡ record { entries = entries; receivers = receivers; purpose = Instance } }
{
    Binders {
        entries,
        receivers,
        purpose: Purpose::Instance,
    }
}

// The same in `argument_context`, where there are no receivers.
pub fn context<'a>(entries: Part, parameters: &Parameters<'a>) -> Binders<'a>
    ensures { result ≡ record { entries = entries; receivers = record { from = entries.end; end = entries.end }; purpose = Context parameters.now } }
{
    Binders {
        entries,
        receivers: nothing_at(entries.end),
        purpose: Purpose::Context(*parameters),
    }
}

// The same in `with_self`: the owner and the replacement are the one receiver.
pub fn self_only<'a>(receiver: Part) -> Binders<'a>
    ensures { result ≡ record { entries = record { from = receiver.from; end = receiver.from }; receivers = receiver; purpose = Instance } }
{
    instantiation(nothing_at(receiver.from), receiver)
}

// The same in `apply`.
pub fn family<'a>(
    entries: Part,
    receivers: Part,
    parameters: &Parameters<'a>,
    arguments: usize,
) -> Binders<'a>
    ensures { result ≡ record { entries = entries; receivers = receivers; purpose = Family parameters.now arguments } }
{
    Binders {
        entries,
        receivers,
        purpose: Purpose::Family(*parameters, arguments),
    }
}
