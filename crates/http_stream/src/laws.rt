//! Laws of the definitions.
ghost use Rattle.std.specs.Prelude.{◌≡◌, ◌⊎◌, ◌++◌, ℕ, List, [], ◌∷◌};
ghost use Rattle.http_messages.specs.declared.audience.Audience.{Audience};
ghost use Rattle.http_messages.specs.declared.request.HeadFault.TheVariants.{BadHead};
ghost use Rattle.http_stream.specs.Streams.{Item, Refuses, AlmostSame, AreRequests, BeginWith};

/// A stream has one list of requests. Only where it ends within a head may httparse have refused
/// that head already.
pub fn one_list_of_requests()
    ensures { (audience : Audience) (bytes : List ℕ) (a b : List Item) → AreRequests audience bytes a →
        AreRequests audience bytes b →
        AlmostSame a b }
{}
