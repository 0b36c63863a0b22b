//! Statuses and types of answers.

ghost use Rattle.std.specs.Prelude.{◌≡◌, ◌≤◌, length};
ghost use Rattle.tally_desk_answer.specs.Answer.{http_status, phrase, allow_line, type_name};

use http::StatusCode;

/// The statuses that are answered (RFC 9110, section 15).
#[derive(Clone, Copy)]
pub enum AnswerStatus {
    /// 200
    Done,
    /// 400
    BadRequest,
    /// 404
    NotFound,
    /// 405 where only GET is allowed
    GetOnly,
    /// 405 where only POST is allowed
    PostOnly,
    /// 409
    Conflict,
    /// 411
    LengthRequired,
    /// 503
    Unavailable,
}

/// The type of a body.
#[derive(Clone, Copy)]
pub enum BodyType {
    Json,
    /// Plain text in UTF-8.
    Text,
    /// CSV (RFC 4180) in UTF-8.
    Csv,
}

/// The status as `http` has it.
pub(crate) fn code_of(status: AnswerStatus) -> StatusCode
    ensures { result ≡ http_status status }
{
    match status {
        AnswerStatus::Done => StatusCode::OK,
        AnswerStatus::BadRequest => StatusCode::BAD_REQUEST,
        AnswerStatus::NotFound => StatusCode::NOT_FOUND,
        AnswerStatus::GetOnly | AnswerStatus::PostOnly => StatusCode::METHOD_NOT_ALLOWED,
        AnswerStatus::Conflict => StatusCode::CONFLICT,
        AnswerStatus::LengthRequired => StatusCode::LENGTH_REQUIRED,
        AnswerStatus::Unavailable => StatusCode::SERVICE_UNAVAILABLE,
    }
}

/// The reason phrase of a status, as `http` has it.
pub(crate) fn phrase_of(status: AnswerStatus) -> &'static str
    ensures phrase { result.now ≡ phrase status }
    ensures short { length result.now ≤ 32 }
{
    match code_of(status).canonical_reason() {
        Some(phrase) => phrase,
        None => unreachable!(),
    }
}

/// The line of a 405 that names the method that is allowed.
pub(crate) fn allow_of(status: AnswerStatus) -> &'static [u8]
    ensures line { result.now ≡ allow_line status }
    ensures short { length result.now ≤ 16 }
{
    match status {
        AnswerStatus::GetOnly => b"Allow: GET\r\n",
        AnswerStatus::PostOnly => b"Allow: POST\r\n",
        _ => b"",
    }
}

/// The name of a type (RFC 9110, section 8.3).
pub(crate) fn name_of(body: BodyType) -> &'static [u8]
    ensures name { result.now ≡ type_name body }
    ensures short { length result.now ≤ 32 }
{
    match body {
        BodyType::Json => b"application/json",
        BodyType::Text => b"text/plain; charset=utf-8",
        BodyType::Csv => b"text/csv; charset=utf-8",
    }
}
