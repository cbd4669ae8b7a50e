//! What is told of an option that is missing, or of one whose value is wrong.
ghost use Rattle.std.specs.Prelude.{◌≡◌};
ghost use Rattle.goo_cli_ending.specs.Settings.{missing_text, wrong_text};

use goo_cli::Setting;

/// What is told where an option is missing.
pub fn missing_text(setting: Setting) -> &'static str
    ensures { result.now ≡ missing_text setting }
{
    match setting {
        Setting::File => "goo: --db is missing: the file of the registry",
        Setting::Code => "goo: --code is missing: a number of 1 to 99",
        Setting::Today => "goo: --today is missing: a day as 2025-03-01",
        Setting::NextSerial => "goo: --next-serial is missing: a number of 1 to 999999999999",
        Setting::Account => "goo: the account is missing: a number of 1 to 999999999",
        Setting::Port => "goo: --port is missing: a number of 1 to 65535",
        Setting::Count => "goo: --count is missing: a number of 0 to 1000000000",
    }
}

/// What is told where the value of an option is none that it may have.
pub fn wrong_text(setting: Setting) -> &'static str
    ensures { result.now ≡ wrong_text setting }
{
    match setting {
        Setting::File => "goo: --db is the file of the registry",
        Setting::Code => "goo: --code is a number of 1 to 99",
        Setting::Today => "goo: --today is a day as 2025-03-01, of 1900-01-01 to 2099-12-31",
        Setting::NextSerial => "goo: --next-serial is a number of 1 to 999999999999",
        Setting::Account => "goo: the account is a number of 1 to 999999999",
        Setting::Port => "goo: --port is a number of 1 to 65535",
        Setting::Count => "goo: --count is a number of 0 to 1000000000",
    }
}
