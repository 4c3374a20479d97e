//! Words of Airflow that are none of a graph file.
//!
//! No contract holds this file: the sections `told` of `worked_scripts` show what it writes.

const BASH: &str = "here it is operator = \"command\", argv = [\"bash\", \"-c\", \"..\"]";

const PYTHON: &str = "here it is operator = \"command\", argv = [\"python3\", \"task.py\"]";

const WAITING: &str = "here it is upstream, in the task that waits";

const COMMENT: &str = "dagsched has none: what follows a # is a comment";

const UPSTREAM: &str = "here it is upstream";

const SENSOR: &str =
    "dagsched has no sensors: a task that fails until what it waits for is there, with retries";

const SAME_DELAY: &str = "dagsched has none: retry_delay is always the same";

const BOUND: &str = "here it is max_active_tasks";

const POOL: &str = "dagsched has none: a pool for this task alone limits it";

const NAME: &str = "here it is dag_id above the tasks, and task_id in a task";

const SHELL: &str = "dagsched has none: argv = [\"sh\", \"-c\", \"cd DIR && X=1 ./load\"] does it";

const TIMEOUT: &str = "here it is execution_timeout, a number of seconds";

const LATE: &str = "dagsched has none: look at list runs";

const PAUSE: &str = "here it is the command pause DAG after the load";

const ALARM: &str =
    "dagsched has none: a task with trigger_rule = \"one_failed\" may tell somebody";

const RETRIES: &str = "here it is retries, which counts the tries after the first";

// Pairs of a key and what stands for it here.
static KEYS: [(&str, &str); 51] = [
    ("schedule_interval", "here it is schedule"),
    (
        "default_args",
        "dagsched has none: its keys stand below each [[task]]",
    ),
    ("bash_command", BASH),
    ("python_callable", PYTHON),
    ("cwd", SHELL),
    ("env", SHELL),
    ("depends_on", UPSTREAM),
    ("depends", UPSTREAM),
    ("needs", UPSTREAM),
    ("after", UPSTREAM),
    ("downstream", "here each task names its upstream"),
    ("upstream_task_ids", WAITING),
    ("task_dependencies", WAITING),
    ("timeout", TIMEOUT),
    ("dagrun_timeout", LATE),
    ("sla", LATE),
    ("email", ALARM),
    ("email_on_failure", ALARM),
    ("email_on_retry", ALARM),
    ("on_failure_callback", ALARM),
    (
        "on_success_callback",
        "dagsched has none: a last task may tell somebody",
    ),
    ("max_retry_delay", SAME_DELAY),
    ("retry_exponential_backoff", SAME_DELAY),
    (
        "wait_for_downstream",
        "dagsched has none: depends_on_past in all tasks comes near to it",
    ),
    ("concurrency", BOUND),
    ("dag_concurrency", BOUND),
    ("max_active_tasks_per_dag", BOUND),
    ("max_active_tis_per_dag", POOL),
    ("task_concurrency", POOL),
    (
        "queue",
        "dagsched has none: all tries run on the scheduler's machine",
    ),
    ("priority", "here it is priority_weight"),
    ("weight", "here it is priority_weight"),
    ("slots", "here it is pool_slots"),
    ("name", NAME),
    ("id", NAME),
    ("cron", "here it is schedule"),
    ("interval", "here it is schedule"),
    ("is_paused_upon_creation", PAUSE),
    ("paused", PAUSE),
    (
        "skip_on_exit_code",
        "dagsched has none: a program that ends with the status 99 is skipped",
    ),
    ("timezone", "dagsched has none: all times are UTC"),
    (
        "params",
        "dagsched has none: what a program needs stands in its argv",
    ),
    (
        "user_defined_macros",
        "dagsched has none: a program finds its dates in its environment",
    ),
    ("description", COMMENT),
    ("tags", COMMENT),
    ("doc_md", COMMENT),
    ("owner", COMMENT),
    ("soft_fail", SENSOR),
    ("poke_interval", SENSOR),
    ("mode", SENSOR),
    ("max_tries", RETRIES),
];

// Pairs of a word that is the value of a key, and what stands for it here.
static VALUES: [(&str, &str); 16] = [
    ("BashOperator", BASH),
    ("bash", BASH),
    ("PythonOperator", PYTHON),
    ("python", PYTHON),
    ("EmptyOperator", "here it is noop"),
    ("DummyOperator", "here it is noop"),
    ("FileSensor", SENSOR),
    ("ExternalTaskSensor", SENSOR),
    ("cmd", BASH),
    ("command", BASH),
    ("script", BASH),
    ("@midnight", "here it is @daily"),
    ("@annually", "here it is @yearly"),
    ("dummy", "here it is always, and the operator noop"),
    (
        "none_failed_or_skipped",
        "here it is none_failed_min_one_success",
    ),
    (
        "all_done_setup_success",
        "dagsched has none: no task is a setup or a teardown",
    ),
];

// What stands here for a key of Airflow, or for a word that is a value there.
pub(crate) fn key_text(name: &str) -> Option<&'static str> {
    match text_in(KEYS.as_slice(), name) {
        Some(said) => Some(said),
        None => value_text(name),
    }
}

// What stands here for a value of a key of Airflow.
pub(crate) fn value_text(word: &str) -> Option<&'static str> {
    text_in(VALUES.as_slice(), word)
}

fn text_in(words: &[(&'static str, &'static str)], word: &str) -> Option<&'static str> {
    for (name, said) in words {
        if *name == word {
            return Some(*said);
        }
    }
    None
}
