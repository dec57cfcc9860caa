//! Descriptions that name no part of a date, as a misspelt call gives them: `v3 '%F %T'`, `strftime rfc3339`.

/// Says of each description among the words that it names no component, where that is seen at once.
pub fn warn_of_bare(rt: &HostRuntime, words: &[&str]) {
    let mut language = None;
    for word in words {
        match language {
            Some(name) => {
                language = None;
                if is_bare(name, word) {
                    warn(rt, name, word);
                }
            }
            None if is_language(word) => language = Some(*word),
            None => {}
        }
    }
}

fn is_language(word: &str) -> bool {
    matches!(word, "v1" | "v2" | "v3" | "strftime")
}

// The byte before each component in a language.
fn mark(language: &str) -> u8 {
    if language == "strftime" { b'%' } else { b'[' }
}

fn is_bare(language: &str, description: &str) -> bool {
    !description.as_bytes().contains(&mark(language))
}

// Where this can't be printed the run still goes on.
fn warn(rt: &HostRuntime, language: &str, description: &str) {
    let form = if language == "strftime" {
        "%Y"
    } else {
        "[year]"
    };
    let _ = eprintln!(rt;
        "instants-lines: warning: {language} \"{description}\" names no component, as {form}"
    );
}
