// The names, a group to a table: the group's own word for a number without a name, then the names from number 0 on.
// Document 01's words stand for types, damage and refusals; the other names are the standard's (clauses 6.2.4, 18 and 21). An empty name: the number has none.
ghost use Rattle.std.specs.Prelude.{◌≡◌, length};

use std::fmt;

// The names of a group of numbers.
pub struct Group {
    own: &'static str,
    names: &'static [&'static str],
}

// A number of a group, to be printed by its name, or behind `own` where it has none.
#[derive(Clone, Copy)]
pub struct Name {
    pub(crate) name: &'static str,
    pub(crate) own: &'static str,
    pub(crate) number: u64,
}

impl Group {
    // A number by its name, else behind the group's own word.
    pub fn name(&self, n: u64) -> Name
        ensures { result.number ≡ n }
    {
        Name {
            name: self.names.get(n as usize).copied().unwrap_or(""),
            own: self.own,
            number: n,
        }
    }

    // A number by its name, else alone.
    pub fn bare(&self, n: u64) -> Name
        ensures number { result.number ≡ n }
        ensures alone { length result.own.now ≡ 0 }
    {
        Name {
            own: "",
            ..self.name(n)
        }
    }
}

impl fmt::Display for Name {
    fn fmt<W: fmt::Write>(&self, f: &mut fmt::Formatter<W>) -> fmt::Result {
        if self.name.is_empty() {
            return write!(f, "{}{}", self.own, self.number);
        }
        f.write_str(self.name)
    }
}

// Frame types.
pub static FRAMES: Group = Group {
    own: "frame of type ",
    names: &[
        "token",
        "poll for master",
        "reply to poll for master",
        "test request",
        "test response",
        "",
        "",
        "reply postponed",
    ],
};

// Damage numbers.
pub static DAMAGES: Group = Group {
    own: "",
    names: &[
        "",
        "header check wrong",
        "length above 501",
        "data check wrong",
        "silence within a frame",
    ],
};

// Refusal numbers.
pub static REFUSALS: Group = Group {
    own: "",
    names: &[
        "",
        "",
        "",
        "",
        "",
        "",
        "",
        "",
        "",
        "",
        "network header ends early",
        "network header of another version",
        "network header with a reserved bit",
        "address length out of range",
        "network number out of range",
        "",
        "",
        "",
        "",
        "",
        "APDU header ends early",
        "unknown APDU type",
        "APDU header with a reserved bit",
        "size code or window out of range",
        "octets after the APDU's end",
        "",
        "",
        "",
        "",
        "",
        "item ends early",
        "tag number out of range",
        "tag not in its shortest form",
        "contents of a wrong length",
        "contents break their type's rule",
        "closing tag without its opening",
        "group without its closing tag",
        "more than 16 groups open",
        "more than 2,048 items",
        "more than 16,384 parameter octets",
        "parameter missing or of another kind",
        "parameter too long or out of range",
        "item after the last parameter",
        "service not read here",
        "",
        "",
        "",
        "",
        "",
        "",
        "no slot free",
        "segment of a message that did not begin",
        "segment out of order",
        "segment with another service",
        "message above 16,384 octets",
    ],
};

// Confirmed services.
pub static CONFIRMED: Group = Group {
    own: "service ",
    names: &[
        "AcknowledgeAlarm",
        "ConfirmedCOVNotification",
        "ConfirmedEventNotification",
        "GetAlarmSummary",
        "GetEnrollmentSummary",
        "SubscribeCOV",
        "AtomicReadFile",
        "AtomicWriteFile",
        "AddListElement",
        "RemoveListElement",
        "CreateObject",
        "DeleteObject",
        "ReadProperty",
        "ReadPropertyConditional",
        "ReadPropertyMultiple",
        "WriteProperty",
        "WritePropertyMultiple",
        "DeviceCommunicationControl",
        "ConfirmedPrivateTransfer",
        "ConfirmedTextMessage",
        "ReinitializeDevice",
        "VT-Open",
        "VT-Close",
        "VT-Data",
        "Authenticate",
        "RequestKey",
        "ReadRange",
        "LifeSafetyOperation",
        "SubscribeCOVProperty",
        "GetEventInformation",
    ],
};

// Unconfirmed services.
pub static UNCONFIRMED: Group = Group {
    own: "service ",
    names: &[
        "I-Am",
        "I-Have",
        "UnconfirmedCOVNotification",
        "UnconfirmedEventNotification",
        "UnconfirmedPrivateTransfer",
        "UnconfirmedTextMessage",
        "TimeSynchronization",
        "Who-Has",
        "Who-Is",
        "UTCTimeSynchronization",
    ],
};

// Network layer messages.
pub static NETWORK: Group = Group {
    own: "",
    names: &[
        "Who-Is-Router-To-Network",
        "I-Am-Router-To-Network",
        "I-Could-Be-Router-To-Network",
        "Reject-Message-To-Network",
        "Router-Busy-To-Network",
        "Router-Available-To-Network",
        "Initialize-Routing-Table",
        "Initialize-Routing-Table-Ack",
        "Establish-Connection-To-Network",
        "Disconnect-Connection-To-Network",
    ],
};

// Kinds of PDU, behind their service where they have one.
pub static KINDS: Group = Group {
    own: "",
    names: &[
        " request",
        "",
        " simple ack",
        " ack",
        "segment ack",
        " error",
        "reject",
        "abort by the client",
        "abort by the server",
    ],
};

// Object types.
pub static OBJECTS: Group = Group {
    own: "type ",
    names: &[
        "analog-input",
        "analog-output",
        "analog-value",
        "binary-input",
        "binary-output",
        "binary-value",
        "calendar",
        "command",
        "device",
        "event-enrollment",
        "file",
        "group",
        "loop",
        "multi-state-input",
        "multi-state-output",
        "notification-class",
        "program",
        "schedule",
        "averaging",
        "multi-state-value",
        "trend-log",
        "life-safety-point",
        "life-safety-zone",
        "accumulator",
        "pulse-converter",
        "event-log",
        "global-group",
        "trend-log-multiple",
        "load-control",
        "structured-view",
        "access-door",
        "timer",
        "access-credential",
        "access-point",
        "access-rights",
        "access-user",
        "access-zone",
        "credential-data-input",
        "network-security",
        "bitstring-value",
        "characterstring-value",
        "date-pattern-value",
        "date-value",
        "datetime-pattern-value",
        "datetime-value",
        "integer-value",
        "large-analog-value",
        "octetstring-value",
        "positive-integer-value",
        "time-pattern-value",
        "time-value",
        "notification-forwarder",
        "alert-enrollment",
        "channel",
        "lighting-output",
        "binary-lighting-output",
        "network-port",
        "elevator-group",
        "escalator",
        "lift",
    ],
};

// Properties.
pub static PROPERTIES: Group = Group {
    own: "property ",
    names: &[
        "acked-transitions",
        "ack-required",
        "action",
        "action-text",
        "active-text",
        "active-vt-sessions",
        "alarm-value",
        "alarm-values",
        "all",
        "all-writes-successful",
        "apdu-segment-timeout",
        "apdu-timeout",
        "application-software-version",
        "archive",
        "bias",
        "change-of-state-count",
        "change-of-state-time",
        "notification-class",
        "",
        "controlled-variable-reference",
        "controlled-variable-units",
        "controlled-variable-value",
        "cov-increment",
        "date-list",
        "daylight-savings-status",
        "deadband",
        "derivative-constant",
        "derivative-constant-units",
        "description",
        "description-of-halt",
        "device-address-binding",
        "device-type",
        "effective-period",
        "elapsed-active-time",
        "error-limit",
        "event-enable",
        "event-state",
        "event-type",
        "exception-schedule",
        "fault-values",
        "feedback-value",
        "file-access-method",
        "file-size",
        "file-type",
        "firmware-revision",
        "high-limit",
        "inactive-text",
        "in-process",
        "instance-of",
        "integral-constant",
        "integral-constant-units",
        "issue-confirmed-notifications",
        "limit-enable",
        "list-of-group-members",
        "list-of-object-property-references",
        "list-of-session-keys",
        "local-date",
        "local-time",
        "location",
        "low-limit",
        "manipulated-variable-reference",
        "maximum-output",
        "max-apdu-length-accepted",
        "max-info-frames",
        "max-master",
        "max-pres-value",
        "minimum-off-time",
        "minimum-on-time",
        "minimum-output",
        "min-pres-value",
        "model-name",
        "modification-date",
        "notify-type",
        "number-of-apdu-retries",
        "number-of-states",
        "object-identifier",
        "object-list",
        "object-name",
        "object-property-reference",
        "object-type",
        "optional",
        "out-of-service",
        "output-units",
        "event-parameters",
        "polarity",
        "present-value",
        "priority",
        "priority-array",
        "priority-for-writing",
        "process-identifier",
        "program-change",
        "program-location",
        "program-state",
        "proportional-constant",
        "proportional-constant-units",
        "protocol-conformance-class",
        "protocol-object-types-supported",
        "protocol-services-supported",
        "protocol-version",
        "read-only",
        "reason-for-halt",
        "recipient",
        "recipient-list",
        "reliability",
        "relinquish-default",
        "required",
        "resolution",
        "segmentation-supported",
        "setpoint",
        "setpoint-reference",
        "state-text",
        "status-flags",
        "system-status",
        "time-delay",
        "time-of-active-time-reset",
        "time-of-state-count-reset",
        "time-synchronization-recipients",
        "units",
        "update-interval",
        "utc-offset",
        "vendor-identifier",
        "vendor-name",
        "vt-classes-supported",
        "weekly-schedule",
        "attempted-samples",
        "average-value",
        "buffer-size",
        "client-cov-increment",
        "cov-resubscription-interval",
        "current-notify-time",
        "event-time-stamps",
        "log-buffer",
        "log-device-object-property",
        "enable",
        "log-interval",
        "maximum-value",
        "minimum-value",
        "notification-threshold",
        "previous-notify-time",
        "protocol-revision",
        "records-since-notification",
        "record-count",
        "start-time",
        "stop-time",
        "stop-when-full",
        "total-record-count",
        "valid-samples",
        "window-interval",
        "window-samples",
        "maximum-value-timestamp",
    ],
};

// Error classes.
pub static CLASSES: Group = Group {
    own: "",
    names: &[
        "device",
        "object",
        "property",
        "resources",
        "security",
        "services",
        "vt",
        "communication",
    ],
};

// Error codes.
pub static CODES: Group = Group {
    own: "",
    names: &[
        "other",
        "authentication-failed",
        "configuration-in-progress",
        "device-busy",
        "dynamic-creation-not-supported",
        "file-access-denied",
        "incompatible-security-levels",
        "inconsistent-parameters",
        "inconsistent-selection-criterion",
        "invalid-data-type",
        "invalid-file-access-method",
        "invalid-file-start-position",
        "invalid-operator-name",
        "invalid-parameter-data-type",
        "invalid-time-stamp",
        "key-generation-error",
        "missing-required-parameter",
        "no-objects-of-specified-type",
        "no-space-for-object",
        "no-space-to-add-list-element",
        "no-space-to-write-property",
        "no-vt-sessions-available",
        "property-is-not-a-list",
        "object-deletion-not-permitted",
        "object-identifier-already-exists",
        "operational-problem",
        "password-failure",
        "read-access-denied",
        "security-not-supported",
        "service-request-denied",
        "timeout",
        "unknown-object",
        "unknown-property",
        "",
        "unknown-vt-class",
        "unknown-vt-session",
        "unsupported-object-type",
        "value-out-of-range",
        "vt-session-already-closed",
        "vt-session-termination-failure",
        "write-access-denied",
        "character-set-not-supported",
        "invalid-array-index",
        "cov-subscription-failed",
        "not-cov-property",
        "optional-functionality-not-supported",
        "invalid-configuration-data",
        "datatype-not-supported",
        "duplicate-name",
        "duplicate-object-id",
        "property-is-not-an-array",
    ],
};

// Reject reasons.
pub static REJECTS: Group = Group {
    own: "",
    names: &[
        "other",
        "buffer-overflow",
        "inconsistent-parameters",
        "invalid-parameter-data-type",
        "invalid-tag",
        "missing-required-parameter",
        "parameter-out-of-range",
        "too-many-arguments",
        "undefined-enumeration",
        "unrecognized-service",
    ],
};

// Abort reasons.
pub static ABORTS: Group = Group {
    own: "",
    names: &[
        "other",
        "buffer-overflow",
        "invalid-apdu-in-this-state",
        "preempted-by-higher-priority-task",
        "segmentation-not-supported",
        "security-error",
        "insufficient-security",
        "window-size-out-of-range",
        "application-exceeded-reply-time",
        "out-of-resources",
        "tsm-timeout",
        "apdu-too-long",
    ],
};

// Application types.
pub static TYPES: Group = Group {
    own: "",
    names: &[
        "null",
        "boolean",
        "unsigned",
        "signed",
        "real",
        "double",
        "octets",
        "characters",
        "bits",
        "enumerated",
        "date",
        "time",
        "object",
    ],
};

// How a device takes segments.
pub static SEGMENTATIONS: Group = Group {
    own: "",
    names: &[
        "segmented-both",
        "segmented-transmit",
        "segmented-receive",
        "no-segmentation",
    ],
};

// Booleans.
pub static BOOLEANS: Group = Group {
    own: "",
    names: &["false", "true"],
};
