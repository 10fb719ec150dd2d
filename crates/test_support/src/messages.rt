//! Messages and their answers, to the byte.

/// The worked question.
pub const QUESTION: &str = "POST /v1/check HTTP/1.1\r\ncontent-length: 70\r\n\r\n\
{\"entries\":[],\"group\":\"g\",\"groups\":[],\"mask\":1,\"owner\":\"o\",\"user\":\"u\"}";

/// The answer to it.
pub const ANSWER: &str = "HTTP/1.1 200 OK\r\ncontent-type: application/json\r\n\
content-length: 30\r\n\r\n{\"allowed\":0,\"bit\":1,\"code\":0}";

/// The answer where no message can come.
pub const BAD_HTTP: &str = "HTTP/1.1 400 Bad Request\r\ncontent-type: application/json\r\n\
content-length: 30\r\nconnection: close\r\n\r\n{\"code\":40,\"error\":\"BAD_HTTP\"}";
