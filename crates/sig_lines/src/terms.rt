//! Subjects, wants and settings of streams as lines and answers have them.

use crate::members::texts_value;
use crate::spelling::text_or_null;
use serde_json::json;
use sig_json::limits::INTERVAL_SECONDS;
use sig_json::{Items, Memory, Text, Value, text_of, whole_of};
use sig_stream::{Defaults, Delivery, Want, WantFault, want_of};
use sig_subject::{Subject, SubjectFault};
use std::alloc::Global;

/// The subject that the value is, none where it is none.
pub fn subject_in(alloc: Global, value: &Value) -> Result<Option<Subject>, Memory> {
    match sig_subject::from_json(alloc, value) {
        Ok(subject) => Ok(Some(subject)),
        Err(SubjectFault::Memory) => Err(Memory),
        Err(_) => Ok(None),
    }
}

/// What the member `want` wants where there is a gateway, none where it isn't there or not in order.
pub fn want_in(alloc: Global, case: &Value) -> Result<Option<Want>, Memory> {
    let Some(body) = case.get("want") else {
        return Ok(None);
    };
    match want_of(alloc, body, true) {
        Ok(want) => Ok(Some(want)),
        Err(WantFault::Memory) => Err(Memory),
        Err(_) => Ok(None),
    }
}

/// The member `defaults`, `ALL` or `NONE`.
pub fn defaults_in(case: &Value) -> Option<Defaults> {
    match text_of(case, "defaults")? {
        "ALL" => Some(Defaults::All),
        "NONE" => Some(Defaults::None),
        _ => None,
    }
}

/// `ALL` or `NONE`.
pub fn defaults_text(defaults: Defaults) -> &'static str {
    match defaults {
        Defaults::All => "ALL",
        Defaults::None => "NONE",
    }
}

/// The member `interval`, from 0 to 86,400 seconds.
pub fn interval_in(case: &Value) -> Option<u64> {
    let interval = whole_of(case, "interval")?;
    if interval < 0 || interval > INTERVAL_SECONDS as i128 {
        return None;
    }
    Some(interval as u64)
}

/// The object of a delivery.
pub fn delivery_value(alloc: Global, delivery: &Delivery) -> Result<Value, Memory> {
    match delivery {
        Delivery::Poll => Ok(json!(in alloc; {"method": "poll"})?),
        Delivery::Push {
            endpoint,
            url,
            authorization,
        } => {
            let authorization = text_or_null(alloc, authorization)?;
            Ok(json!(in alloc; {
                "authorization": authorization,
                "host": endpoint.place.host.as_str(),
                "method": "push",
                "path": endpoint.path.as_str(),
                "port": endpoint.place.port,
                "secure": endpoint.secure,
                "url": url.as_str()
            })?)
        }
    }
}

/// The list of the types that were asked for, null where none was named.
pub fn requested_value(alloc: Global, requested: &Option<Items<Text>>) -> Result<Value, Memory> {
    match requested {
        Some(texts) => texts_value(alloc, texts.as_slice()),
        None => Ok(Value::Null),
    }
}
