//! The replies of the plug-in.

ghost use Rattle.std.specs.Prelude.{◌≡◌};
ghost use Rattle.np_model.specs.PagePlan.{may_answer as answers_some};
ghost use Rattle.np_message.specs.declared.payload.Payload.TheVariants.{Code, Done};
ghost use Rattle.np_host_end.specs.Answers.{Answers};

use np_message::Payload;
use np_model::Outstanding;
use np_values::NpError;

/// A reply that answers the call that is open.
#[derive(Clone, Copy, Debug, PartialEq, Eq)]
pub enum Answer {
    /// Hello's: the plug-in is compatible.
    Compatible,
    /// Hello's: it isn't.
    Incompatible,
    /// NPP_New's.
    Created(NpError),
    /// NPP_Destroy's, of this instance.
    Destroyed(u8),
    /// That of an empty call.
    Turned,
    /// Shutdown's.
    ShutDown,
}

/// Whether the kind answers a call of the page at all.
pub fn may_answer(body: &Payload) -> bool
    ensures value { result ≡ answers_some body.now }
{
    matches!(body, Payload::Code(_) | Payload::Done)
}

/// What the reply says, or `None` where it is none to that call.
pub fn answer_to(call: Outstanding, body: &Payload) -> Option<Answer>
    ensures value { Answers call body.now result }
{
    match body {
        Payload::Code(error) => answer_of_code(call, *error),
        Payload::Done => answer_of_done(call),
        _ => None,
    }
}

fn answer_of_code(call: Outstanding, error: NpError) -> Option<Answer>
    ensures value { Answers call (Code error) result }
{
    match (call, error) {
        (Outstanding::Hello, NpError::NoError) => Some(Answer::Compatible),
        (Outstanding::Hello, NpError::IncompatibleVersion) => Some(Answer::Incompatible),
        (Outstanding::New, _) => Some(Answer::Created(error)),
        (Outstanding::Destroy(instance), NpError::NoError) => Some(Answer::Destroyed(instance)),
        _ => None,
    }
}

fn answer_of_done(call: Outstanding) -> Option<Answer>
    ensures value { Answers call Done result }
{
    match call {
        Outstanding::Turn => Some(Answer::Turned),
        Outstanding::Shutdown => Some(Answer::ShutDown),
        Outstanding::Hello | Outstanding::New | Outstanding::Destroy(_) => None,
    }
}
