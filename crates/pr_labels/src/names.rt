// Names of labels, and of metrics.
ghost use Rattle.std.specs.Prelude.{◌≡◌};
ghost use Rattle.std.specs.Bool.{OnTrue};
ghost use Rattle.std.specs.List.{list_all};
ghost use Rattle.std.specs.Str.{IsUtf8};
ghost use Rattle.pr_words.specs.Bytes.{is_letter, is_label_byte};
ghost use Rattle.pr_labels.specs.Names.{is_label_name, is_metric_letter, is_metric_byte, is_metric_name};

fn is_letter(b: u8) -> bool
    ensures { result ≡ is_letter b }
{
    b.is_ascii_alphabetic() || b == b'_'
}

fn is_label_byte(b: u8) -> bool
    ensures { result ≡ is_label_byte b }
{
    is_letter(b) || b.is_ascii_digit()
}

fn are_label_bytes(bytes: &[u8]) -> bool
    ensures { result ≡ list_all is_label_byte bytes.now }
{
    bytes.iter().all(|b| is_label_byte(*b))
}

fn has_label_form(name: &[u8]) -> bool
    ensures { result ≡ is_label_name name.now }
{
    match name {
        [] => false,
        [first, rest @ ..] => is_letter(*first) && are_label_bytes(rest),
    }
}

/// Whether this is the name of a label: letters, underscores and digits, of which the first is no
/// digit. (Prometheus: Data model.) Such a name is a text.
pub fn is_label_name(name: &[u8]) -> bool
    ensures test { result ≡ is_label_name name.now }
    ensures text { OnTrue result (IsUtf8 name.now) }
{
    has_label_form(name)
}

fn is_metric_letter(b: u8) -> bool
    ensures { result ≡ is_metric_letter b }
{
    is_letter(b) || b == b':'
}

fn is_metric_byte(b: u8) -> bool
    ensures { result ≡ is_metric_byte b }
{
    is_metric_letter(b) || b.is_ascii_digit()
}

fn are_metric_bytes(bytes: &[u8]) -> bool
    ensures { result ≡ list_all is_metric_byte bytes.now }
{
    bytes.iter().all(|b| is_metric_byte(*b))
}

fn has_metric_form(name: &[u8]) -> bool
    ensures { result ≡ is_metric_name name.now }
{
    match name {
        [] => false,
        [first, rest @ ..] => is_metric_letter(*first) && are_metric_bytes(rest),
    }
}

/// Whether this is a classic name of a metric: letters, underscores, colons and digits, of which
/// the first is no digit. (Prometheus: Data model.) Such a name is a text.
pub fn is_metric_name(name: &[u8]) -> bool
    ensures test { result ≡ is_metric_name name.now }
    ensures text { OnTrue result (IsUtf8 name.now) }
{
    has_metric_form(name)
}
