//! The answers that are constants, which need no memory.
ghost use Rattle.std.specs.Prelude.{◌≡◌};
ghost use Rattle.http_messages.specs.Answers.{no_memory_answer, refusal_answer, route_fault_answer};

use crate::{HeadFault, Method};

/// Why a whole request gets no answer of a route.
#[derive(Clone, Copy, PartialEq, Eq)]
pub enum RouteFault {
    /// The target has no route.
    NoRoute,
    /// The target has a route, by this method alone.
    WrongMethod(Method),
}

const BAD_HEAD: &str = "HTTP/1.1 400 Bad Request\r\n\
    Content-Type: application/json\r\n\
    Content-Length: 32\r\n\
    Connection: close\r\n\r\n\
    {\"fault\":\"BadHead\",\"status\":400}";

const UNKNOWN_METHOD: &str = "HTTP/1.1 501 Not Implemented\r\n\
    Content-Length: 0\r\n\
    Connection: close\r\n\r\n";

const WRONG_VERSION: &str = "HTTP/1.1 505 HTTP Version Not Supported\r\n\
    Content-Type: application/json\r\n\
    Content-Length: 37\r\n\
    Connection: close\r\n\r\n\
    {\"fault\":\"WrongVersion\",\"status\":505}";

const BAD_HOST: &str = "HTTP/1.1 400 Bad Request\r\n\
    Content-Type: application/json\r\n\
    Content-Length: 32\r\n\
    Connection: close\r\n\r\n\
    {\"fault\":\"BadHost\",\"status\":400}";

const NOT_ALLOWED: &str = "HTTP/1.1 403 Forbidden\r\n\
    Content-Type: application/json\r\n\
    Content-Length: 35\r\n\
    Connection: close\r\n\r\n\
    {\"fault\":\"NotAllowed\",\"status\":403}";

const NO_TRANSFER_CODING: &str = "HTTP/1.1 501 Not Implemented\r\n\
    Content-Type: application/json\r\n\
    Content-Length: 41\r\n\
    Connection: close\r\n\r\n\
    {\"fault\":\"NoTransferCoding\",\"status\":501}";

const BAD_LENGTH: &str = "HTTP/1.1 400 Bad Request\r\n\
    Content-Type: application/json\r\n\
    Content-Length: 34\r\n\
    Connection: close\r\n\r\n\
    {\"fault\":\"BadLength\",\"status\":400}";

const TOO_LARGE: &str = "HTTP/1.1 413 Payload Too Large\r\n\
    Content-Type: application/json\r\n\
    Content-Length: 33\r\n\
    Connection: close\r\n\r\n\
    {\"fault\":\"TooLarge\",\"status\":413}";

const LENGTH_REQUIRED: &str = "HTTP/1.1 411 Length Required\r\n\
    Content-Type: application/json\r\n\
    Content-Length: 39\r\n\
    Connection: close\r\n\r\n\
    {\"fault\":\"LengthRequired\",\"status\":411}";

const NO_ROUTE: &str = "HTTP/1.1 404 Not Found\r\n\
    Content-Type: application/json\r\n\
    Content-Length: 32\r\n\r\n\
    {\"fault\":\"NoRoute\",\"status\":404}";

const NO_ROUTE_LAST: &str = "HTTP/1.1 404 Not Found\r\n\
    Content-Type: application/json\r\n\
    Content-Length: 32\r\n\
    Connection: close\r\n\r\n\
    {\"fault\":\"NoRoute\",\"status\":404}";

const GET_ALONE: &str = "HTTP/1.1 405 Method Not Allowed\r\n\
    Content-Type: application/json\r\n\
    Content-Length: 36\r\n\
    Allow: GET\r\n\r\n\
    {\"fault\":\"WrongMethod\",\"status\":405}";

const GET_ALONE_LAST: &str = "HTTP/1.1 405 Method Not Allowed\r\n\
    Content-Type: application/json\r\n\
    Content-Length: 36\r\n\
    Allow: GET\r\n\
    Connection: close\r\n\r\n\
    {\"fault\":\"WrongMethod\",\"status\":405}";

const POST_ALONE: &str = "HTTP/1.1 405 Method Not Allowed\r\n\
    Content-Type: application/json\r\n\
    Content-Length: 36\r\n\
    Allow: POST\r\n\r\n\
    {\"fault\":\"WrongMethod\",\"status\":405}";

const POST_ALONE_LAST: &str = "HTTP/1.1 405 Method Not Allowed\r\n\
    Content-Type: application/json\r\n\
    Content-Length: 36\r\n\
    Allow: POST\r\n\
    Connection: close\r\n\r\n\
    {\"fault\":\"WrongMethod\",\"status\":405}";

const NO_MEMORY: &str = "HTTP/1.1 503 Service Unavailable\r\n\
    Content-Type: application/json\r\n\
    Content-Length: 30\r\n\r\n\
    {\"fault\":\"NoMemory\",\"rule\":23}";

const NO_MEMORY_LAST: &str = "HTTP/1.1 503 Service Unavailable\r\n\
    Content-Type: application/json\r\n\
    Content-Length: 30\r\n\
    Connection: close\r\n\r\n\
    {\"fault\":\"NoMemory\",\"rule\":23}";

/// The answer to a request that is refused by its head.
pub fn refusal_text(why: HeadFault) -> &'static str
    ensures { result.now ≡ refusal_answer why }
{
    match why {
        HeadFault::BadHead => BAD_HEAD,
        HeadFault::UnknownMethod => UNKNOWN_METHOD,
        HeadFault::WrongVersion => WRONG_VERSION,
        HeadFault::BadHost => BAD_HOST,
        HeadFault::NotAllowed => NOT_ALLOWED,
        HeadFault::NoTransferCoding => NO_TRANSFER_CODING,
        HeadFault::BadLength => BAD_LENGTH,
        HeadFault::TooLarge => TOO_LARGE,
        HeadFault::LengthRequired => LENGTH_REQUIRED,
    }
}

fn no_route(is_last: bool) -> &'static str
    ensures { result.now ≡ route_fault_answer RouteFault.NoRoute is_last }
{
    if is_last { NO_ROUTE_LAST } else { NO_ROUTE }
}

fn get_alone(is_last: bool) -> &'static str
    ensures { result.now ≡ route_fault_answer (RouteFault.WrongMethod Method.Get) is_last }
{
    if is_last { GET_ALONE_LAST } else { GET_ALONE }
}

fn post_alone(is_last: bool) -> &'static str
    ensures { result.now ≡ route_fault_answer (RouteFault.WrongMethod Method.Post) is_last }
{
    if is_last { POST_ALONE_LAST } else { POST_ALONE }
}

/// The answer to a request whose target has no route, or has it by the other method.
pub fn route_fault_text(fault: RouteFault, is_last: bool) -> &'static str
    ensures { result.now ≡ route_fault_answer fault is_last }
{
    match fault {
        RouteFault::NoRoute => no_route(is_last),
        RouteFault::WrongMethod(Method::Get) => get_alone(is_last),
        RouteFault::WrongMethod(Method::Post) => post_alone(is_last),
    }
}

/// The answer that stands for one which found no memory.
pub fn no_memory_text(is_last: bool) -> &'static str
    ensures { result.now ≡ no_memory_answer is_last }
{
    if is_last { NO_MEMORY_LAST } else { NO_MEMORY }
}
